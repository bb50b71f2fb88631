// Answers as numbers: a C function may not hand back an enum.
ghost use Rattle.std.specs.Prelude.{◌≡◌};
ghost use Rattle.pending.specs.Pending.{no_transfer};
ghost use Rattle.capi.specs.Flat;
ghost use Rattle.capi.specs.Flat.{event_row, removed_ticket, flat_event, answer_number, completion_status, completion_length};
ghost use Rattle.capi.specs.Flat.{flat_opened, flat_fed, flat_completed, flat_closed, flat_inquired, flat_numbers};

use events::answer::{Event, Returned};
use limits::MAX_PACKETS;
use messages::message::Transfer;
use packets::packet::Packet;
use pending::counts::Numbers;
use pending::list::Tickets;
use session::answer::{Closed, Completed, Fed, Inquired, Opened};
use session::state::Session;
use verdicts::verdict::Refusal;
use wire::codes::SETUP_LEN;

// The kinds of an event: numbers, as the C header has them.
pub const HUNGRY: u32 = 0;

pub const LIST: u32 = 1;

pub const IMPORT: u32 = 2;

pub const SUBMIT: u32 = 3;

pub const ANSWER: u32 = 4;

pub const UNLINK: u32 = 5;

pub const BREAK: u32 = 6;

pub const REFUSED: u32 = 7;

// An event: its kind; the number of a refusal or a break; an import's, answer's or unlink's status; an answer's or unlink's seqnum;
// the byte of its message at which a break's fault stands; the ticket that an unlink removed, 0 if none; an accepted submit's ticket,
// transfer, setup bytes, arrival and packets. What an event doesn't have is 0.
#[repr(C)]
#[derive(Clone, Copy)]
pub struct FlatEvent {
    pub kind: u32,
    pub number: u32,
    pub status: u32,
    pub seqnum: u32,
    pub at: usize,
    pub removed: u64,
    pub ticket: u64,
    pub transfer: Transfer,
    pub setup: [u8; SETUP_LEN],
    pub arrival: u32,
    pub iso: [Packet; MAX_PACKETS],
}

// What the acts hand back: the next session; a refusal's number, or 0; and what stands beside.
#[repr(C)]
#[derive(Clone, Copy)]
pub struct FlatOpened {
    pub session: Session,
    pub refusal: u32,
}

#[repr(C)]
#[derive(Clone, Copy)]
pub struct FlatFed {
    pub session: Session,
    pub event: FlatEvent,
    pub consumed: usize,
    pub length: usize,
    pub dropped: Tickets,
}

#[repr(C)]
#[derive(Clone, Copy)]
pub struct FlatCompleted {
    pub session: Session,
    pub refusal: u32,
    pub status: u32,
    pub length: u64,
}

#[repr(C)]
#[derive(Clone, Copy)]
pub struct FlatClosed {
    pub session: Session,
    pub refusal: u32,
    pub dropped: Tickets,
}

// The stale tickets: an inquiry hands back no session.
#[repr(C)]
#[derive(Clone, Copy)]
pub struct FlatInquired {
    pub refusal: u32,
    pub stale: Tickets,
}

#[repr(C)]
#[derive(Clone, Copy)]
pub struct FlatNumbers {
    pub accepted: u64,
    pub pending: u64,
    pub returned: u64,
    pub unlinked: u64,
    pub dropped: u64,
}

// An event that has nothing, with setup bytes and packets beside it.
fn bare(setup: [u8; SETUP_LEN], iso: [Packet; MAX_PACKETS]) -> FlatEvent
    ensures { result ≡ event_row Flat.HUNGRY 0 0 0 0 0 0 no_transfer setup 0 iso }
{
    FlatEvent {
        kind: HUNGRY,
        number: 0,
        status: 0,
        seqnum: 0,
        at: 0,
        removed: 0,
        ticket: 0,
        transfer: Transfer::default(),
        setup: setup,
        arrival: 0,
        iso: iso,
    }
}

// Tickets count from 1, so that 0 is none.
fn removed_ticket(removed: Option<u64>) -> u64
    ensures { result ≡ removed_ticket removed }
{
    match removed {
        None => 0,
        Some(ticket) => ticket,
    }
}

// An event that is replied with a status, of a seqnum where it has one.
fn replied(bare: FlatEvent, kind: u32, seqnum: u32, status: u32, removed: u64) -> FlatEvent
    ensures { result ≡ event_row kind bare.number status seqnum bare.at removed bare.ticket bare.transfer bare.setup bare.arrival bare.iso }
{
    FlatEvent {
        kind: kind,
        seqnum: seqnum,
        status: status,
        removed: removed,
        ..bare
    }
}

pub(crate) fn flat_event(
    event: Event,
    setup: [u8; SETUP_LEN],
    iso: [Packet; MAX_PACKETS],
) -> FlatEvent
    ensures { result ≡ flat_event event setup iso }
{
    let none = bare(setup, iso);
    match event {
        Event::Hungry => none,
        Event::List => FlatEvent { kind: LIST, ..none },
        Event::Import(status) => replied(none, IMPORT, 0, status, 0),
        Event::Submit(ticket, arrival, transfer) => FlatEvent {
            kind: SUBMIT,
            ticket: ticket,
            arrival: arrival,
            transfer: transfer,
            ..none
        },
        Event::Answer(seqnum, status) => replied(none, ANSWER, seqnum, status, 0),
        Event::Unlink(seqnum, status, removed) => {
            replied(none, UNLINK, seqnum, status, removed_ticket(removed))
        }
        Event::Break(fault) => FlatEvent {
            kind: BREAK,
            number: fault.number,
            at: fault.at,
            ..none
        },
        Event::Refused(number) => FlatEvent {
            kind: REFUSED,
            number: number,
            ..none
        },
    }
}

// The number of a refusal; 0 where there is none.
fn number_of<T: Drop>(answer: Result<T, Refusal>) -> u32
    ensures { result ≡ answer_number answer }
{
    match answer {
        Ok(_) => 0,
        Err(refusal) => u32::from(refusal),
    }
}

impl From<Opened> for FlatOpened {
    ghost from_gives = { λ opened flat. flat ≡ flat_opened opened };

    fn from(opened: Opened) -> FlatOpened {
        let next = opened.session;
        FlatOpened {
            session: next,
            refusal: number_of(opened.answer),
        }
    }
}

impl From<Fed> for FlatFed {
    ghost from_gives = { λ fed flat. flat ≡ flat_fed fed };

    fn from(fed: Fed) -> FlatFed {
        let next = fed.session;
        let answer = fed.answer;
        let dropped = fed.dropped;
        FlatFed {
            session: next,
            event: flat_event(answer.event, answer.setup, answer.iso),
            consumed: answer.consumed,
            length: answer.length,
            dropped: dropped,
        }
    }
}

// What a URB was returned with; zeros where the completion was refused.
fn returned(answer: Result<Returned, Refusal>) -> Returned
    ensures { result ≡ record { length = completion_length answer; status = completion_status answer } }
{
    match answer {
        Ok(returned) => returned,
        Err(_) => Returned {
            length: 0,
            status: 0,
        },
    }
}

impl From<Completed> for FlatCompleted {
    ghost from_gives = { λ done flat. flat ≡ flat_completed done };

    fn from(done: Completed) -> FlatCompleted {
        let next = done.session;
        let returned = returned(done.answer);
        FlatCompleted {
            session: next,
            refusal: number_of(done.answer),
            status: returned.status,
            length: returned.length,
        }
    }
}

impl From<Closed> for FlatClosed {
    ghost from_gives = { λ closed flat. flat ≡ flat_closed closed };

    fn from(closed: Closed) -> FlatClosed {
        let next = closed.session;
        let dropped = closed.dropped;
        FlatClosed {
            session: next,
            refusal: number_of(closed.answer),
            dropped: dropped,
        }
    }
}

impl From<Inquired> for FlatInquired {
    ghost from_gives = { λ inquired flat. flat ≡ flat_inquired inquired };

    fn from(inquired: Inquired) -> FlatInquired {
        let stale = inquired.stale;
        FlatInquired {
            refusal: number_of(inquired.answer),
            stale: stale,
        }
    }
}

impl From<Numbers> for FlatNumbers {
    ghost from_gives = { λ n flat. flat ≡ flat_numbers n };

    fn from(n: Numbers) -> FlatNumbers {
        FlatNumbers {
            accepted: n.accepted,
            pending: n.pending,
            returned: n.returned,
            unlinked: n.unlinked,
            dropped: n.dropped,
        }
    }
}
