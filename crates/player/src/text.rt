// The lines of one act: those of `replay`, and behind them those that `trace` adds.
ghost use Rattle.std.specs.Prelude.{ℕ, ◌≤◌, ◌≡◌, List, take};
ghost use Rattle.limits.specs.Limits.{MAX-PACKETS};
ghost use Rattle.packets.specs.declared.packet.Packet.{Packet};
ghost use Rattle.pending.specs.declared.list.Tickets.{Tickets};
ghost use Rattle.events.specs.Answers.{event_of, completion_by};
ghost use Rattle.player.specs.Prints.{Puts, data_length, data_traces, submit_traces, event_traces, feed_traces, feed_text, completion_text};

use events::answer::{Answer, Event, Returned};
use ground::part::front;
use limits::MAX_PACKETS;
use lines::replay::{complete_line, feed_lines};
use messages::message::Transfer;
use packets::packet::Packet;
use pending::list::Tickets;
use traces::{trace_data, trace_feed, trace_header, trace_packets, trace_record, trace_removed};
use wire::codes::{DIR_OUT, SETUP_LEN};

// How many bytes of data came with a submit.
fn data_len(direction: u32, length: u32) -> usize
    ensures { result ≡ data_length direction length }
{
    if direction == DIR_OUT {
        length as usize
    } else {
        0
    }
}

// An accepted submit's record and data.
fn put_data(ticket: u64, u: Transfer, setup: [u8; SETUP_LEN], work: &[u8], out: &mut [u8]) -> usize
    ensures { (arrival : ℕ) (iso : List Packet)
        → Puts (data_traces (record { ticket = ticket; transfer = u; setup = setup; arrival = arrival; iso = iso }) work.now)
        out.old out.new result }
{
    let n = trace_record(ticket, u, setup, out);
    let size = data_len(u.direction, u.length);
    n + trace_data(front(work, size), &mut out[n..])
}

// What a trace adds for an accepted submit: its record, which shows no arrival, its data and its packets.
fn put_submit(
    ticket: u64,
    u: Transfer,
    setup: [u8; SETUP_LEN],
    iso: [Packet; MAX_PACKETS],
    work: &[u8],
    out: &mut [u8],
) -> usize
    ensures { (arrival : ℕ)
        → Puts (submit_traces (record { ticket = ticket; transfer = u; setup = setup; arrival = arrival; iso = iso }) work.now)
        out.old out.new result }
{
    let n = put_data(ticket, u, setup, work, out);
    n + trace_packets(u.packets, iso, &mut out[n..])
}

// What a trace adds for an event: besides, the ticket that an unlink removed.
fn put_beside(a: Answer, work: &[u8], out: &mut [u8]) -> usize
    ensures { (ts : Tickets)
        → Puts (event_traces (event_of a.event a.setup a.iso ts) work.now) out.old out.new result }
{
    let event = a.event;
    let setup = a.setup;
    let iso = a.iso;
    match event {
        Event::Submit(ticket, _, u) => put_submit(ticket, u, setup, iso, work, out),
        Event::Unlink(_, _, removed) => trace_removed(removed, out),
        Event::Hungry => 0,
        Event::List => 0,
        Event::Import(_) => 0,
        Event::Answer(_, _) => 0,
        Event::Break(_) => 0,
        Event::Refused(_) => 0,
    }
}

// What a trace adds for a feed: what it consumed and replied, and what goes with its event.
fn put_traced(a: Answer, work: &[u8], reply: &[u8], out: &mut [u8]) -> usize
    ensures { (ts : Tickets)
        → Puts (feed_traces (event_of a.event a.setup a.iso ts) a.consumed a.length work.now reply.now)
        out.old out.new result }
{
    let n = trace_feed(a.consumed, a.length, front(reply, a.length), out);
    n + put_beside(a, work, &mut out[n..])
}

// The lines of a feed.
pub(crate) fn put_feed(
    traced: bool,
    a: Answer,
    dropped: Tickets,
    work: &[u8],
    reply: &[u8],
    out: &mut [u8],
) -> usize
    ensures { Puts (feed_text traced (event_of a.event a.setup a.iso dropped) a.consumed a.length work.now reply.now)
        out.old out.new result }
{
    let n = feed_lines(a, dropped, out);
    if traced {
        return n + put_traced(a, work, reply, &mut out[n..]);
    }
    n
}

// The lines of a completion of so many packets, with the ticket and the actual length that the device side handed over, and the
// header that it left. (`traced` is a flag, as the definitions have it: `completion_text traced`.)
pub(crate) fn put_completion(
    traced: bool,
    packets: usize,
    ticket: u64,
    actual: u32,
    answer: Result<Returned, u32>,
    header: &[u8],
    out: &mut [u8],
) -> usize
    requires { packets ≤ MAX-PACKETS }
    ensures { Puts (completion_text traced packets ticket actual (completion_by answer) header.now) out.old out.new result }
{
    let n = complete_line(ticket, actual, answer, out);
    if traced {
        return n + trace_header(packets, answer, header, &mut out[n..]);
    }
    n
}
