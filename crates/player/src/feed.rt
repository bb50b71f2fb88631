// The stream bytes of a record: fed until they are used up or the session is closed.
ghost use Rattle.std.specs.Prelude.{ℕ, ◌≡◌, List, length};
ghost use Rattle.packets.specs.declared.packet.Packet.{Packet};
ghost use Rattle.pending.specs.declared.list.Tickets.{Tickets};
ghost use Rattle.model.specs.Cut.{lent};
ghost use Rattle.events.specs.Answers.{event_of};
ghost use Rattle.feeding.specs.Feeding.{fed_of};
ghost use Rattle.session.specs.Views.{view_of};
ghost use Rattle.player.specs.Play.{ends_stream, play_stream};
ghost use Rattle.player.specs.Played.{Tells, Plays};

use crate::record::Played;
use crate::text::put_feed;
use events::answer::Event;
use session::state::Session;

// Whether nothing more of a record is fed after an event.
fn is_end(event: Event) -> bool
    ensures { (setup : List ℕ) (iso : List Packet) (dropped : Tickets) → result ≡ ends_stream (event_of event setup iso dropped) }
{
    matches!(
        event,
        Event::List | Event::Import(1..) | Event::Break(_) | Event::Refused(_)
    )
}

// One feed, at time 0: the next session, the bytes consumed, whether nothing more is fed, and how many bytes of lines were put.
#[derive(Clone, Copy)]
pub struct Told {
    pub session: Session,
    pub consumed: usize,
    pub end: bool,
    pub len: usize,
}

fn feed_once(
    session: Session,
    traced: bool,
    piece: &[u8],
    work: &mut [u8],
    reply: &mut [u8],
    out: &mut [u8],
) -> Told
    ensures { Tells traced result (fed_of (view_of session) (lent work.old reply.old) piece.now 0)
        (lent work.new reply.new) out.old out.new }
{
    let fed = session.feed(piece, work, reply, 0);
    let answer = fed.answer;
    let len = put_feed(traced, answer, fed.dropped, work, reply, out);
    Told {
        session: fed.session,
        consumed: answer.consumed,
        end: is_end(answer.event),
        len,
    }
}

// All the stream bytes of a record.
pub(crate) fn play_stream(
    session: Session,
    traced: bool,
    bytes: &[u8],
    work: &mut [u8],
    reply: &mut [u8],
    out: &mut [u8],
) -> Played
    ensures { Plays result (play_stream traced (length bytes.now) (view_of session) (lent work.old reply.old) bytes.now)
        (lent work.new reply.new) out.old out.new }
{
    let mut s = session;
    let mut at: usize = 0;
    let mut len: usize = 0;
    for turn in 0..bytes.len() {
        let told = feed_once(s, traced, &bytes[at..], work, reply, &mut out[len..]);
        s = told.session;
        at += told.consumed;
        len += told.len;
        if told.end || at == bytes.len() {
            break;
        }
    }
    Played { session: s, len }
}
