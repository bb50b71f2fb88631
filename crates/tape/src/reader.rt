// The reader of a tape's records.
ghost use Rattle.std.specs.Prelude.{◌≡◌, ◌<◌, ◌≤◌, MatchResult, length};
ghost use Rattle.tape.specs.declared.reader.Unread.{Unread};
ghost use Rattle.tape.specs.Tape.{length_of, stream_head, completion_head, iso_head, head_of, read_of, read_behind, wanted_of, stream_of};

use crate::layout::{
    ACTUAL_AT, CLOSE_MARK, COMPLETION_LEN, COMPLETION_MARK, COUNT_AT, ISO_MARK, MARK_AT, MARK_LEN,
    MAX_COUNT, MAX_RECORDS, RESULT_COUNT_AT, RESULT_LEN, RESULTS_AT, STATUS_AT, STREAM_AT,
    STREAM_MARK, TICKET_AT,
};
use limits::MAX_PACKETS;
use wire::number::BigEndian;

// A record: how many stream bytes it has; a completion by the device (actual is actual_length); one of an isochronous URB, with as
// many results; a close. `fields_of` in specs/ gives each case's mark and fields.
#[derive(Clone, Copy)]
pub enum Record {
    Stream(u16),
    Completion {
        ticket: u64,
        status: u32,
        actual: u32,
    },
    Iso {
        ticket: u64,
        status: u32,
        count: u8,
    },
    Close,
}

// Why the first bytes of a tape tell no record: how many bytes are needed to tell more, or that it doesn't read.
#[derive(Clone, Copy)]
enum Unread {
    Short(usize),
    Bad,
}

// That as many bytes are there; where they are not, so many are needed.
fn reach(bytes: &[u8], len: usize) -> Result<(), Unread>
    ensures { MatchResult result (λ _. len ≤ length bytes.now) (λ why. (length bytes.now < len) × (why ≡ Unread.Short len)) }
{
    if bytes.len() < len {
        return Err(Unread::Short(len));
    }
    Ok(())
}

// Behind `C>`.
#[tactic(auto, unfolding(crate::specs::Tape::stream_head))]
fn stream_head(bytes: &[u8]) -> Result<Record, Unread>
    ensures { result ≡ stream_head bytes.now }
{
    reach(bytes, STREAM_AT)?;
    let count = u16::read(bytes, COUNT_AT);
    if MAX_COUNT < count {
        return Err(Unread::Bad);
    }
    Ok(Record::Stream(count))
}

// Behind `D>`.
#[tactic(auto, unfolding(crate::specs::Tape::completion_head))]
fn completion_head(bytes: &[u8]) -> Result<Record, Unread>
    ensures { result ≡ completion_head bytes.now }
{
    reach(bytes, COMPLETION_LEN)?;
    Ok(Record::Completion {
        ticket: u64::read(bytes, TICKET_AT),
        status: u32::read(bytes, STATUS_AT),
        actual: u32::read(bytes, ACTUAL_AT),
    })
}

// Behind `I>`.
#[tactic(auto, unfolding(crate::specs::Tape::iso_head))]
fn iso_head(bytes: &[u8]) -> Result<Record, Unread>
    ensures { result ≡ iso_head bytes.now }
{
    reach(bytes, RESULTS_AT)?;
    let count = u8::read(bytes, RESULT_COUNT_AT);
    if MAX_PACKETS < count as usize {
        return Err(Unread::Bad);
    }
    Ok(Record::Iso {
        ticket: u64::read(bytes, TICKET_AT),
        status: u32::read(bytes, STATUS_AT),
        count,
    })
}

#[tactic(auto, unfolding(crate::specs::Tape::head_of))]
fn read_head(bytes: &[u8]) -> Result<Record, Unread>
    ensures { result ≡ head_of bytes.now }
{
    reach(bytes, MARK_LEN)?;
    match u16::read(bytes, MARK_AT) {
        STREAM_MARK => stream_head(bytes),
        COMPLETION_MARK => completion_head(bytes),
        ISO_MARK => iso_head(bytes),
        CLOSE_MARK => Ok(Record::Close),
        _ => Err(Unread::Bad),
    }
}

// How many bytes a record takes; the next one stands behind them.
pub fn record_len(r: Record) -> usize
    ensures { result ≡ length_of r }
{
    match r {
        Record::Stream(count) => STREAM_AT + count as usize,
        Record::Completion { .. } => COMPLETION_LEN,
        Record::Iso { count, .. } => RESULTS_AT + count as usize * RESULT_LEN,
        Record::Close => MARK_LEN,
    }
}

// The record at the front of a tape; None where it doesn't read.
pub fn read_record(bytes: &[u8]) -> Option<Record>
    ensures { result ≡ read_of bytes.now }
{
    read_head(bytes)
        .ok()
        .filter(|r| record_len(*r) <= bytes.len())
}

// The record at the front of what is left of a tape, behind as many records as `before`: a tape has at most MAX_RECORDS.
pub fn read_next(before: usize, bytes: &[u8]) -> Option<Record>
    ensures { result ≡ read_behind before bytes.now }
{
    if MAX_RECORDS <= before {
        return None;
    }
    read_record(bytes)
}

// How many bytes the record takes, as far as its first bytes tell; those that are there where it doesn't read. A program that
// reads on to as many, and asks again until it has them, has the record and no byte behind it.
pub fn wanted(bytes: &[u8]) -> usize
    ensures { result ≡ wanted_of bytes.now }
{
    match read_head(bytes) {
        Ok(r) => record_len(r),
        Err(Unread::Short(n)) => n,
        Err(Unread::Bad) => bytes.len(),
    }
}

// The stream bytes of a record that has `count` of them; none where they aren't all there.
pub fn stream_bytes(bytes: &[u8], count: u16) -> &[u8]
    ensures { result.now ≡ stream_of count bytes.now }
{
    bytes
        .get(STREAM_AT..STREAM_AT + count as usize)
        .unwrap_or(&[])
}
