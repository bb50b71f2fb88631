// The acts of a session, each a call of one that is proved elsewhere.
ghost use Rattle.std.specs.Prelude.{◌≡◌};
ghost use Rattle.results.specs.Results.{results_of};
ghost use Rattle.model.specs.State.{numbers_of, served_devid};
ghost use Rattle.model.specs.Acts.{plain, isochronous};
ghost use Rattle.model.specs.Cut.{lent};
ghost use Rattle.session.specs.Views.{view_of, handed};
ghost use Rattle.capi.specs.Flat.{flat_numbers};
ghost use Rattle.capi.specs.Faces.{OpensFlat, FeedsFlat, CompletesFlat, ClosesFlat, InquiresFlat};

use crate::flat::{FlatClosed, FlatCompleted, FlatFed, FlatInquired, FlatNumbers, FlatOpened};
use exports::device::Table;
use results::Results;
use session::state::Session;

#[unsafe(no_mangle)]
pub extern "C" fn rimemaple_open(table: Table) -> FlatOpened
    ensures { OpensFlat table result }
{
    FlatOpened::from(Session::open(table))
}

#[unsafe(no_mangle)]
pub extern "C" fn rimemaple_feed(
    session: Session,
    piece: &[u8],
    work: &mut [u8],
    reply: &mut [u8],
    time: u32,
) -> FlatFed
    ensures { FeedsFlat session piece.now (lent work.old reply.old) (lent work.new reply.new) time result }
{
    FlatFed::from(session.feed(piece, work, reply, time))
}

#[unsafe(no_mangle)]
pub extern "C" fn rimemaple_complete(
    session: Session,
    ticket: u64,
    status: u32,
    actual: u32,
    payload: &[u8],
    header: &mut [u8],
) -> FlatCompleted
    ensures { CompletesFlat session (handed plain ticket status actual payload.now header.old) header.new result }
{
    FlatCompleted::from(session.complete(ticket, status, actual, payload, header))
}

// The same for an isochronous URB, with a result for each packet.
#[unsafe(no_mangle)]
pub extern "C" fn rimemaple_complete_iso(
    session: Session,
    ticket: u64,
    status: u32,
    total: u32,
    results: Results,
    payload: &[u8],
    header: &mut [u8],
) -> FlatCompleted
    ensures { CompletesFlat session (handed (isochronous (results_of results)) ticket status total payload.now header.old)
        header.new result }
{
    let done = session.complete_iso(ticket, status, total, results, payload, header);
    FlatCompleted::from(done)
}

#[unsafe(no_mangle)]
pub extern "C" fn rimemaple_close(session: Session) -> FlatClosed
    ensures { ClosesFlat session result }
{
    FlatClosed::from(session.close())
}

// The tickets of the pending URBs whose age at a time is at least a limit; nothing changes.
#[unsafe(no_mangle)]
pub extern "C" fn rimemaple_stale(session: Session, time: u32, limit: u32) -> FlatInquired
    ensures { InquiresFlat session time limit result }
{
    FlatInquired::from(session.stale(time, limit))
}

// How many URBs were accepted, are pending, were returned, unlinked and dropped.
#[unsafe(no_mangle)]
pub extern "C" fn rimemaple_numbers(session: Session) -> FlatNumbers
    ensures { result ≡ flat_numbers (numbers_of (view_of session)) }
{
    FlatNumbers::from(session.numbers())
}

// The devid of the device that is served; 0 while none is attached.
#[unsafe(no_mangle)]
pub extern "C" fn rimemaple_devid(session: Session) -> u64
    ensures { result ≡ served_devid (view_of session) }
{
    session.devid()
}
