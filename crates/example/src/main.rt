// A worked call of each act: the story of the late picture, told through the API. The client's stream comes on standard input: an
// import request, a submit of sequence number 7, its unlink, a submit of number 7 again, and an isochronous submit of two packets.
#![tactic(auto)]

use rimemaple::{
    BUSID_LEN, DESCRIPTOR_LEN, Event, HEADER_LEN, HEADER_ROOM, MAX_PACKETS, OP_LEN, PacketResult,
    REPLY_LEN, Refusal, Results, Session, WORK_LEN, part,
};
use std::io;
use std::io::{ErrorKind, Read};
use tape::table::tape_table;

// The bytes of a picture, and how many of a reply the socket takes at once.
const PICTURE_LEN: usize = 64;

const SOCKET_TAKES: usize = 1460;

// The packets of a stream's request.
const PACKETS: usize = 2;

// After so many milliseconds a request has waited too long.
const PATIENCE: u32 = 5000;

fn say(rt: &impl Print, words: &str, number: u64) -> io::Result<()> {
    println!(rt; "{words}{number}")
}

// A refusal, by its number.
fn say_refused(rt: &impl Print, act: &str, refusal: Refusal) -> io::Result<()> {
    let number = u32::from(refusal);
    println!(rt; "{act} is refused with {number}")
}

// The next bytes of the stream; where it ends early, the others stay as they are.
fn receive(rt: &impl Input, bytes: &mut [u8]) -> io::Result<()> {
    let mut reader = rt.reader();
    match reader.read_exact(bytes) {
        Err(e) if e.kind() == ErrorKind::UnexpectedEof => Ok(()),
        result => result,
    }
}

// A piece of the stream, which may be cut anywhere; here it is a whole message. OUT data and descriptors go to work, and the reply to
// the front of reply. The time is in milliseconds, and wraps: an accepted submit keeps it.
fn feed(
    rt: &impl Print,
    s: Session,
    piece: &[u8],
    work: &mut [u8],
    reply: &mut [u8],
    time: u32,
) -> io::Result<Session> {
    let fed = s.feed(piece, work, reply, time);
    let answer = fed.answer;
    say(rt, "bytes to the client: ", answer.length as u64)?;
    match answer.event {
        Event::Submit(ticket, _, _) => say(rt, "the device starts ticket ", ticket)?,
        Event::Unlink(_, _, Some(ticket)) => say(rt, "the device cancels ticket ", ticket)?,
        Event::Break(fault) => say(rt, "the session broke with ", fault.number as u64)?,
        _ => (),
    }
    Ok(fed.session)
}

fn feed_next(
    rt: &(impl Input + Print),
    s: Session,
    work: &mut [u8],
    reply: &mut [u8],
    time: u32,
) -> io::Result<Session> {
    let mut message = [0u8; HEADER_LEN];
    receive(rt, &mut message)?;
    feed(rt, s, &message, work, reply, time)
}

// Which requests have waited too long. The session stays as it is.
fn inquire(rt: &impl Print, s: Session, time: u32) -> io::Result<()> {
    let inquired = s.stale(time, PATIENCE);
    match inquired.answer {
        Ok(()) => say(rt, "stale requests: ", inquired.stale.count as u64),
        Err(refusal) => say_refused(rt, "the inquiry", refusal),
    }
}

// The device is done with a ticket. What goes out is a part of the header or of the picture, lent and not copied: call `part`
// again with what was sent until it is empty.
fn complete(
    rt: &impl Print,
    s: Session,
    ticket: u64,
    picture: &[u8],
    header: &mut [u8],
) -> io::Result<Session> {
    let done = s.complete(ticket, 0, PICTURE_LEN as u32, picture, header);
    match done.answer {
        Ok(returned) => {
            let first = part(header, picture, PICTURE_LEN, 0, 0, SOCKET_TAKES);
            say(rt, "bytes to the client: ", returned.length)?;
            say(rt, "in the first part: ", first.len() as u64)?
        }
        Err(refusal) => say_refused(rt, "the completion", refusal)?,
    }
    Ok(done.session)
}

// The same for an isochronous request, with an actual length and a status for each packet: here both came whole, without gaps in the
// data. Their descriptors go out behind it, so `part` is told how many there are.
fn complete_stream(
    rt: &impl Print,
    s: Session,
    ticket: u64,
    data: &[u8],
    header: &mut [u8],
) -> io::Result<Session> {
    let whole = PacketResult {
        actual: PICTURE_LEN as u32 / PACKETS as u32,
        status: 0,
    };
    let results = Results {
        list: [whole; MAX_PACKETS],
        count: PACKETS,
    };
    let done = s.complete_iso(ticket, 0, PICTURE_LEN as u32, results, data, header);
    match done.answer {
        Ok(returned) => {
            let sent = HEADER_LEN + PICTURE_LEN;
            let last = part(header, data, PICTURE_LEN, PACKETS, sent, SOCKET_TAKES);
            say(rt, "bytes to the client: ", returned.length)?;
            say(rt, "in the last part: ", last.len() as u64)?
        }
        Err(refusal) => say_refused(rt, "the completion", refusal)?,
    }
    Ok(done.session)
}

fn main(rt: HostRuntime) -> io::Result<()> {
    let mut work = [0u8; WORK_LEN];
    let mut reply = [0u8; REPLY_LEN];
    let mut header = [0u8; HEADER_ROOM];
    let picture = [0u8; PICTURE_LEN];
    let table = tape_table();
    let opened = Session::open(table);
    let waiting = opened.session;
    let mut request = [0u8; OP_LEN + BUSID_LEN];
    receive(&rt, &mut request)?;
    let attached = feed(&rt, waiting, &request, &mut work, &mut reply, 0)?;
    let asked = feed_next(&rt, attached, &mut work, &mut reply, 1000)?;
    let cancelled = feed_next(&rt, asked, &mut work, &mut reply, 2000)?;
    let again = feed_next(&rt, cancelled, &mut work, &mut reply, 3000)?;
    inquire(&rt, again, 8000)?;
    let late = complete(&rt, again, 1, &picture, &mut header)?;
    let returned = complete(&rt, late, 2, &picture, &mut header)?;
    let mut stream = [0u8; HEADER_LEN + PACKETS * DESCRIPTOR_LEN];
    receive(&rt, &mut stream)?;
    let asked = feed(&rt, returned, &stream, &mut work, &mut reply, 9000)?;
    let streamed = complete_stream(&rt, asked, 3, &picture, &mut header)?;
    let closed = streamed.close();
    let last = closed.session;
    let numbers = last.numbers();
    say(&rt, "returned: ", numbers.returned)?;
    say(&rt, "unlinked: ", numbers.unlinked)
}
