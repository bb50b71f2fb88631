// The decisions: each goes through its table in order and gives the answer of the first test that holds. There are three kinds
// of "no": an act's own refusal, a fault of the stream, a status that a submit is answered.
ghost use Rattle.std.specs.Prelude.{◌≡◌, not, ◌&&◌, ◌||◌, eqb, ltb};
ghost use Rattle.wire.specs.Codes;
ghost use Rattle.ground.specs.Tests.{first};
ghost use Rattle.verdicts.specs.Numbers.{refusal_number, fault_number, by_number};
ghost use Rattle.verdicts.specs.Verdicts.{verdict_of, fault, feed_refusals, request_tests, transfer_tests, header_tests, submit_tests};
ghost use Rattle.verdicts.specs.Verdicts.{unlink_tests, non_isochronous, good_count, completion_refusals, short_read, status_sent};

use limits::{
    BAD_CODE, BAD_COMMAND, BAD_DEVID, BAD_DIRECTION, BAD_LENGTH, BAD_PACKETS, BAD_TABLE,
    BAD_VERSION, DIRTY_PADDING, HEADER_ROOM, LAST_TICKET, MAX_EP, MAX_PACKETS, MAX_PENDING,
    MAX_TRANSFER, MISFIT, NO_PACKETS, NOT_PENDING, REPLY_LEN, SEQNUM_PENDING, SESSION_CLOSED,
    SHORT_BUFFER, SHORT_DATA, STATUS_ABOVE_0, WORK_LEN,
};
use messages::message::{Header, Transfer};
use messages::request::Request;
use wire::codes::{
    CMD_SUBMIT, CMD_UNLINK, CODE_AT, COMMAND_AT, DEVID_AT, DIR_IN, DIRECTION_AT, HEADER_LEN,
    LENGTH_AT, OP_REQ_DEVLIST, OP_REQ_IMPORT, OP_STATUS_AT, PACKETS_AT, SEQNUM_AT,
    URB_SHORT_NOT_OK, VERSION, VERSION_AT,
};
use wire::status::{MINUS_EINVAL, MINUS_ENODEV, MINUS_ENOMEM, MINUS_EREMOTEIO, is_positive};

// Why an act is refused. PROTOCOL.md, 5 has the number of each.
#[derive(Clone, Copy, Debug, PartialEq, Eq)]
pub enum Refusal {
    ShortBuffer,
    BadTable,
    SessionClosed,
    NotPending,
    StatusAbove0,
    Misfit,
    ShortData,
}

impl From<Refusal> for u32 {
    ghost from_gives = { λ refusal number. number ≡ refusal_number refusal };

    fn from(refusal: Refusal) -> u32 {
        match refusal {
            Refusal::ShortBuffer => SHORT_BUFFER,
            Refusal::BadTable => BAD_TABLE,
            Refusal::SessionClosed => SESSION_CLOSED,
            Refusal::NotPending => NOT_PENDING,
            Refusal::StatusAbove0 => STATUS_ABOVE_0,
            Refusal::Misfit => MISFIT,
            Refusal::ShortData => SHORT_DATA,
        }
    }
}

// An answer whose refusal is its number, as what prints or hands on an answer takes it.
pub fn by_number<T: Drop>(answer: Result<T, Refusal>) -> Result<T, u32>
    ensures { result ≡ by_number answer }
{
    match answer {
        Ok(value) => Ok(value),
        Err(refusal) => Err(u32::from(refusal)),
    }
}

// What is wrong with a stream. PROTOCOL.md, 6 has the number of each.
#[derive(Clone, Copy, Debug, PartialEq, Eq)]
pub enum FaultKind {
    BadVersion,
    BadCode,
    BadCommand,
    BadDirection,
    BadLength,
    BadPackets,
    SeqnumPending,
    DirtyPadding,
    BadDevid,
}

impl From<FaultKind> for u32 {
    ghost from_gives = { λ kind number. number ≡ fault_number kind };

    fn from(kind: FaultKind) -> u32 {
        match kind {
            FaultKind::BadVersion => BAD_VERSION,
            FaultKind::BadCode => BAD_CODE,
            FaultKind::BadCommand => BAD_COMMAND,
            FaultKind::BadDirection => BAD_DIRECTION,
            FaultKind::BadLength => BAD_LENGTH,
            FaultKind::BadPackets => BAD_PACKETS,
            FaultKind::SeqnumPending => SEQNUM_PENDING,
            FaultKind::DirtyPadding => DIRTY_PADDING,
            FaultKind::BadDevid => BAD_DEVID,
        }
    }
}

// A fault of the stream: its number, and at which byte of its request or message it stands. Only the reader of a field makes one. (A
// number: the claims about every run speak of it, and what hands on or prints a fault takes any.)
#[repr(C)]
#[derive(Clone, Copy, Debug, PartialEq, Eq)]
pub struct Fault {
    pub number: u32,
    pub at: usize,
}

fn faulty(kind: FaultKind, at: usize) -> Result<(), Fault>
    ensures { result ≡ Err (fault (fault_number kind) at) }
{
    Err(Fault {
        number: u32::from(kind),
        at,
    })
}

// A feed, before a byte is looked at: is the session closed, and how long are the buffers?
pub fn feed_refusal(closed: bool, work: usize, reply: usize) -> Result<(), Refusal>
    ensures { result ≡ verdict_of (first (feed_refusals closed work reply)) }
{
    if closed {
        return Err(Refusal::SessionClosed);
    }
    if work < WORK_LEN {
        return Err(Refusal::ShortBuffer);
    }
    if reply < REPLY_LEN {
        return Err(Refusal::ShortBuffer);
    }
    Ok(())
}

// The code of a request that is known.
fn good_code(code: u16) -> bool
    ensures { result ≡ (eqb code Codes.OP-REQ-DEVLIST || eqb code Codes.OP-REQ-IMPORT) }
{
    if code == OP_REQ_DEVLIST {
        return true;
    }
    code == OP_REQ_IMPORT
}

// A request, when its 8th byte is in.
pub fn request_fault(r: Request) -> Result<(), Fault>
    ensures { result ≡ verdict_of (first (request_tests r)) }
{
    if r.version != VERSION {
        return faulty(FaultKind::BadVersion, VERSION_AT);
    }
    if !good_code(r.code) {
        return faulty(FaultKind::BadCode, CODE_AT);
    }
    if r.status != 0 {
        return faulty(FaultKind::DirtyPadding, OP_STATUS_AT);
    }
    Ok(())
}

// By number_of_packets a transfer isn't isochronous.
fn non_isochronous(packets: u32) -> bool
    ensures { result ≡ non_isochronous packets }
{
    if packets == 0 {
        return true;
    }
    packets == NO_PACKETS
}

// A number_of_packets that is taken.
fn good_count(packets: u32) -> bool
    ensures { result ≡ good_count packets }
{
    if packets as usize <= MAX_PACKETS {
        return true;
    }
    packets == NO_PACKETS
}

// A submit, by its own fields alone.
pub fn transfer_fault(t: Transfer) -> Result<(), Fault>
    ensures { result ≡ verdict_of (first (transfer_tests t)) }
{
    if DIR_IN < t.direction {
        return faulty(FaultKind::BadDirection, DIRECTION_AT);
    }
    if MAX_TRANSFER < t.length {
        return faulty(FaultKind::BadLength, LENGTH_AT);
    }
    if !good_count(t.packets) {
        return faulty(FaultKind::BadPackets, PACKETS_AT);
    }
    Ok(())
}

// A message for another device than the one that is attached.
fn for_another(h: Header, devid: u64) -> bool
    ensures { result ≡ not (eqb h.devid devid) }
{
    h.devid as u64 != devid
}

// An unlink, by its own fields and the devid that is attached.
pub fn unlink_fault(h: Header, devid: u64) -> Result<(), Fault>
    ensures { result ≡ verdict_of (first (unlink_tests h devid)) }
{
    if h.dirty < HEADER_LEN {
        return faulty(FaultKind::DirtyPadding, h.dirty);
    }
    if for_another(h, devid) {
        return faulty(FaultKind::BadDevid, DEVID_AT);
    }
    Ok(())
}

// A message, when its 48th byte is in; taken says whether a submit's seqnum is pending.
pub fn header_fault(h: Header, devid: u64, taken: bool) -> Result<(), Fault>
    ensures { result ≡ verdict_of (first (header_tests h devid taken)) }
{
    if h.command == CMD_UNLINK {
        return unlink_fault(h, devid);
    }
    if h.command != CMD_SUBMIT {
        return faulty(FaultKind::BadCommand, COMMAND_AT);
    }
    transfer_fault(h.transfer)?;
    if taken {
        return faulty(FaultKind::SeqnumPending, SEQNUM_AT);
    }
    Ok(())
}

// A submit, when its last byte is in: by the devid that is attached, whether its packets are bad, and how many are pending and were ever
// accepted.
pub fn submit_status(
    h: Header,
    devid: u64,
    bad: bool,
    pending: usize,
    accepted: u64,
) -> Result<(), u32>
    ensures { result ≡ verdict_of (first (submit_tests h devid bad pending accepted)) }
{
    if for_another(h, devid) {
        return Err(MINUS_ENODEV);
    }
    if MAX_EP < h.transfer.ep {
        return Err(MINUS_EINVAL);
    }
    if bad {
        return Err(MINUS_EINVAL);
    }
    if MAX_PENDING <= pending {
        return Err(MINUS_ENOMEM);
    }
    if LAST_TICKET <= accepted {
        return Err(MINUS_ENOMEM);
    }
    Ok(())
}

// What is asked of the URB that a completion names: its length and direction, and whether the completion's kind and packets fit it.
#[derive(Clone, Copy)]
pub struct Named {
    pub length: u32,
    pub direction: u32,
    pub fits: bool,
}

// What a completion is judged by: the session, the buffers' lengths (payload: the device data's), what it says, and the URB that was
// found under its ticket, if one was.
#[derive(Clone, Copy)]
pub struct Completing {
    pub closed: bool,
    pub header: usize,
    pub status: u32,
    pub actual: u32,
    pub payload: usize,
    pub urb: Option<Named>,
}

// An IN transfer takes its data from the device's, payload bytes long.
fn short_data(direction: u32, payload: usize, actual: u32) -> bool
    ensures { result ≡ (eqb direction Codes.DIR-IN && ltb payload actual) }
{
    if direction != DIR_IN {
        return false;
    }
    payload < actual as usize
}

pub fn completion_refusal(c: Completing) -> Result<(), Refusal>
    ensures { result ≡ verdict_of (first (completion_refusals c)) }
{
    if c.closed {
        return Err(Refusal::SessionClosed);
    }
    if c.header < HEADER_ROOM {
        return Err(Refusal::ShortBuffer);
    }
    let Some(urb) = c.urb else {
        return Err(Refusal::NotPending);
    };
    if is_positive(c.status) {
        return Err(Refusal::StatusAbove0);
    }
    if urb.length < c.actual {
        return Err(Refusal::Misfit);
    }
    if !urb.fits {
        return Err(Refusal::Misfit);
    }
    if short_data(urb.direction, c.payload, c.actual) {
        return Err(Refusal::ShortData);
    }
    Ok(())
}

// A read that came short, of a client that doesn't take it as good; status and actual length as given.
fn short_read(u: Transfer, status: u32, actual: u32) -> bool
    ensures { result ≡ short_read u status actual }
{
    if u.direction != DIR_IN {
        return false;
    }
    if !non_isochronous(u.packets) {
        return false;
    }
    if u.flags % 2 != URB_SHORT_NOT_OK {
        return false;
    }
    if status != 0 {
        return false;
    }
    actual < u.length
}

// The status that a completion is returned with, by its transfer and what was given.
pub fn status_sent(u: Transfer, status: u32, actual: u32) -> u32
    ensures { result ≡ status_sent u status actual }
{
    if short_read(u, status, actual) {
        return MINUS_EREMOTEIO;
    }
    status
}
