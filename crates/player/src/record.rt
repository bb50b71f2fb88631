// A record of a tape, played on a session. The session goes by value from act to act, and each buffer is lent by itself: so they stay
// parameters of their own.
ghost use Rattle.std.specs.Prelude.{◌≤◌};
ghost use Rattle.limits.specs.Limits.{MAX-PACKETS};
ghost use Rattle.results.specs.Results.{results_of};
ghost use Rattle.model.specs.Acts.{Buffers, plain, isochronous};
ghost use Rattle.model.specs.Cut.{lent};
ghost use Rattle.session.specs.Views.{view_of};
ghost use Rattle.tape.specs.Tape.{iso_total};
ghost use Rattle.player.specs.Play.{play_completion, play_close, play_record};
ghost use Rattle.player.specs.Played.{Plays};

use crate::feed::play_stream;
use crate::text::put_completion;
use limits::HEADER_ROOM;
use lines::replay::close_lines;
use results::Results;
use session::state::Session;
use tape::iso::{iso_results, iso_total};
use tape::reader::{Record, stream_bytes};
use tape::table::device_data;
use verdicts::verdict::by_number;

// The next session, and how many bytes of lines were put.
#[derive(Clone, Copy)]
pub struct Played {
    pub session: Session,
    pub len: usize,
}

// The device side is done with a ticket.
fn play_completion(
    session: Session,
    traced: bool,
    ticket: u64,
    status: u32,
    actual: u32,
    out: &mut [u8],
) -> Played
    ensures { (b : Buffers) → Plays result (play_completion traced plain ticket status actual (view_of session) b) b out.old out.new }
{
    let data = device_data();
    let mut header = [0u8; HEADER_ROOM];
    let done = session.complete(ticket, status, actual, &data, &mut header);
    let answer = by_number(done.answer);
    let len = put_completion(traced, 0, ticket, actual, answer, &header, out);
    Played {
        session: done.session,
        len,
    }
}

// The same of an isochronous URB, with a result for each packet. The session has an act for each kind, and what they share is put by
// `put_completion`. (The bound keeps the sum of a header and its descriptors small.)
fn play_iso(
    session: Session,
    traced: bool,
    ticket: u64,
    status: u32,
    results: Results,
    out: &mut [u8],
) -> Played
    requires { results.count ≤ MAX-PACKETS }
    ensures { (b : Buffers)
        → Plays result (play_completion traced (isochronous (results_of results)) ticket status (iso_total (results_of results)) (view_of session) b) b
        out.old out.new }
{
    let data = device_data();
    let total = iso_total(results);
    let mut header = [0u8; HEADER_ROOM];
    let done = session.complete_iso(ticket, status, total, results, &data, &mut header);
    let answer = by_number(done.answer);
    let len = put_completion(traced, results.count, ticket, total, answer, &header, out);
    Played {
        session: done.session,
        len,
    }
}

// The session is closed.
fn play_close(session: Session, out: &mut [u8]) -> Played
    ensures { (b : Buffers) → Plays result (play_close (view_of session) b) b out.old out.new }
{
    let closed = session.close();
    let answer = by_number(closed.answer);
    Played {
        session: closed.session,
        len: close_lines(answer, closed.dropped, out),
    }
}

// Plays a record, whose bytes these are, and puts its lines at the front of the output; traced: with every byte visible.
pub fn play_record(
    session: Session,
    traced: bool,
    r: Record,
    bytes: &[u8],
    work: &mut [u8],
    reply: &mut [u8],
    out: &mut [u8],
) -> Played
    ensures { Plays result (play_record traced r bytes.now (view_of session) (lent work.old reply.old))
        (lent work.new reply.new) out.old out.new }
{
    match r {
        Record::Stream(count) => {
            let stream = stream_bytes(bytes, count);
            play_stream(session, traced, stream, work, reply, out)
        }
        Record::Completion {
            ticket,
            status,
            actual,
        } => play_completion(session, traced, ticket, status, actual, out),
        Record::Iso {
            ticket,
            status,
            count,
        } => {
            let results = iso_results(bytes, count);
            play_iso(session, traced, ticket, status, results, out)
        }
        Record::Close => play_close(session, out),
    }
}
