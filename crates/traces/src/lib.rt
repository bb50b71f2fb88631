// The lines that the program `trace` adds to those of `replay`, as bytes. What each is stands in specs/.
#![tactic(auto)]

ghost use Rattle.std.specs.Prelude.{ℕ, ◌+◌, ◌*◌, ◌≤◌, List, [], ◌∷◌, length};
ghost use Rattle.ground.specs.Writing.{Wrote};
ghost use Rattle.limits.specs.Limits.{MAX-PACKETS};
ghost use Rattle.packets.specs.declared.packet.Packet.{Packet};
ghost use Rattle.events.specs.Answers.{removed_of, completion_by};
ghost use Rattle.numerals.specs.Digits.{ascii};
ghost use Rattle.numerals.specs.Texts.{WORD-LEN, FIELD-LEN, fields, line_of, text_of, TextHolds, HasRoom};
ghost use Rattle.traces.specs.Traces.{RECORD-LEN, hex_field, feed_trace, record_fields, record_trace, data_trace};
ghost use Rattle.traces.specs.Traces.{packet_fields, packets_trace, removed_trace, header_trace};

use events::answer::Returned;
use limits::MAX_PACKETS;
use messages::message::{Transfer, iso_count};
use numerals::text::Text;
use packets::packet::Packet;
use wire::codes::{DESCRIPTOR_LEN, HEADER_LEN, SETUP_LEN};

// A line whose last field is bytes.
fn put_hex(line: Text, bytes: &[u8], out: &mut [u8]) -> usize
    requires { HasRoom line 3 }
    ensures { Wrote (line_of (text_of line) (hex_field bytes.now ∷ [])) out.old out.new result }
{
    if bytes.is_empty() {
        return line.added(b" -\n").put(out);
    }
    line.added(b" ").put_bytes(bytes, out)
}

// Writes the line of a feed's answer, if the buffer has room, and answers how many bytes it wrote.
pub fn trace_feed(consumed: usize, length: usize, reply: &[u8], out: &mut [u8]) -> usize
    ensures { Wrote (feed_trace consumed length reply.now) out.old out.new result }
{
    let line = Text::begun(b"feed")
        .number(consumed as u64)
        .number(length as u64);
    put_hex(line, reply, out)
}

// The numbers of a record.
fn record_text(ticket: u64, t: Transfer) -> Text
    ensures { TextHolds result (fields (ascii "record") (record_fields ticket t)) RECORD-LEN }
{
    Text::begun(b"record")
        .number(ticket)
        .number(t.seqnum as u64)
        .number(t.direction as u64)
        .number(t.ep as u64)
        .number(t.flags as u64)
        .number(t.length as u64)
        .number(t.start as u64)
        .number(t.packets as u64)
        .number(t.interval as u64)
}

// The same of an accepted submit's record, whatever its arrival, which isn't shown, and its packets, which have a line of their own.
pub fn trace_record(ticket: u64, t: Transfer, setup: [u8; SETUP_LEN], out: &mut [u8]) -> usize
    ensures { (arrival : ℕ) (iso : List Packet)
        → Wrote (record_trace (record { ticket = ticket; transfer = t; setup = setup; arrival = arrival; iso = iso }))
        out.old out.new result }
{
    put_hex(record_text(ticket, t), &setup, out)
}

// The same of an accepted submit's data.
pub fn trace_data(bytes: &[u8], out: &mut [u8]) -> usize
    ensures { Wrote (data_trace bytes.now) out.old out.new result }
{
    put_hex(Text::begun(b"data"), bytes, out)
}

// The two fields of each packet. (The bound keeps them inside a text.)
fn packets_text(packets: &[Packet]) -> Text
    requires { length packets.now ≤ MAX-PACKETS }
    ensures { TextHolds result (fields (ascii "packets") (packet_fields packets.now)) (WORD-LEN + length packets.now * (2 * FIELD-LEN)) }
{
    let mut text = Text::begun(b"packets");
    for packet in packets {
        text = text
            .number(packet.offset as u64)
            .number(packet.length as u64);
    }
    text
}

// The same of an accepted submit's packets; nothing where it isn't isochronous.
pub fn trace_packets(packets: u32, iso: [Packet; MAX_PACKETS], out: &mut [u8]) -> usize
    ensures { Wrote (packets_trace packets iso) out.old out.new result }
{
    let n = iso_count(packets);
    if n == 0 {
        return 0;
    }
    packets_text(&iso[..n]).ended().put(out)
}

// The same of what an unlink removed.
pub fn trace_removed(removed: Option<u64>, out: &mut [u8]) -> usize
    ensures { Wrote (removed_trace (removed_of removed)) out.old out.new result }
{
    let line = match removed {
        Some(ticket) => Text::begun(b"removed").number(ticket).ended(),
        None => Text::begun(b"removed -\n"),
    };
    line.put(out)
}

// The same of a completion of so many packets and the header buffer that it left. (The bound keeps a sum of sizes small.)
pub fn trace_header(
    packets: usize,
    answer: Result<Returned, u32>,
    header: &[u8],
    out: &mut [u8],
) -> usize
    requires { packets ≤ MAX-PACKETS }
    ensures { Wrote (header_trace packets (completion_by answer) header.now) out.old out.new result }
{
    let (wire, size) = match answer {
        Ok(returned) => (returned.length, HEADER_LEN + packets * DESCRIPTOR_LEN),
        Err(_) => (0, 0),
    };
    let shown = header.len().min(size);
    put_hex(Text::begun(b"header").number(wire), &header[..shown], out)
}
