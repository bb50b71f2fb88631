// The lines of the program `replay`.
ghost use Rattle.std.specs.Prelude.{◌≡◌, ℕ, ◌≤◌, List, [], ◌∷◌, ◌++◌, take};
ghost use Rattle.ground.specs.Lists.{joined};
ghost use Rattle.ground.specs.Writing.{Wrote};
ghost use Rattle.packets.specs.declared.packet.Packet.{Packet};
ghost use Rattle.events.specs.Answers.{event_of, completion_by, closing_by};
ghost use Rattle.numerals.specs.Digits.{ascii, decimal, status_text};
ghost use Rattle.numerals.specs.Texts.{TEXT-LEN, LINE-LEN, DROPPED-LEN, line, text_of, TextHolds, HasRoom, Adds};
ghost use Rattle.lines.specs.Lines.{dropped_line, feed_lines, completion_lines, close_lines, end_line, bad_tape_line};

use events::answer::{Answer, Event, Returned};
use ground::writing::write;
use limits::MAX_PENDING;
use numerals::text::Text;
use pending::counts::Numbers;
use pending::list::Tickets;
use verdicts::verdict::Fault;

// One more line, of a ticket that was dropped.
fn with_drop(text: Text, ticket: u64) -> Text
    requires { HasRoom text DROPPED-LEN }
    ensures { Adds text result (dropped_line ticket) DROPPED-LEN }
{
    text.added(b"dropped").number(ticket).ended()
}

// The lines of the tickets that a break or a closing dropped, behind a line. (A count past the array takes in the whole array.)
fn with_dropped(line: Text, dropped: Tickets) -> Text
    requires { line.len ≤ LINE-LEN }
    ensures { TextHolds result (text_of line ++ joined dropped_line (take dropped.count dropped.tickets)) TEXT-LEN }
{
    let count = dropped.count.min(MAX_PENDING);
    let mut text = line;
    for ticket in &dropped.tickets[..count] {
        text = with_drop(text, *ticket);
    }
    text
}

// A refusal, by its number: any number is taken.
fn refused_line(number: u32) -> Text
    ensures { TextHolds result (line "refused" (decimal number ∷ [])) LINE-LEN }
{
    Text::begun(b"refused").number(number as u64).ended()
}

fn return_line(ticket: u64, status: u32, actual: u32) -> Text
    ensures { TextHolds result (line "return" (decimal ticket ∷ status_text status ∷ decimal actual ∷ [])) LINE-LEN }
{
    Text::begun(b"return")
        .number(ticket)
        .status(status)
        .number(actual as u64)
        .ended()
}

// A fault, by its number and its place.
fn broken_line(fault: Fault) -> Text
    ensures { TextHolds result (line "broken" (decimal fault.number ∷ ascii "at" ∷ decimal fault.at ∷ [])) LINE-LEN }
{
    Text::begun(b"broken")
        .number(fault.number as u64)
        .added(b" at")
        .number(fault.at as u64)
        .ended()
}

fn event_text(event: Event, dropped: Tickets) -> Text
    ensures { (result.len ≤ TEXT-LEN) × ((setup : List ℕ) (iso : List Packet) → text_of result ≡ feed_lines (event_of event setup iso dropped)) }
{
    match event {
        Event::Hungry => Text::empty(),
        Event::List => Text::begun(b"list").ended(),
        Event::Import(status) => Text::begun(b"import").number(status as u64).ended(),
        Event::Submit(ticket, _, u) => Text::begun(b"submit")
            .number(ticket)
            .number(u.seqnum as u64)
            .ended(),
        Event::Answer(seqnum, status) => Text::begun(b"answer")
            .number(seqnum as u64)
            .status(status)
            .ended(),
        Event::Unlink(seqnum, status, _) => Text::begun(b"unlink")
            .number(seqnum as u64)
            .status(status)
            .ended(),
        Event::Break(fault) => with_dropped(broken_line(fault), dropped),
        Event::Refused(number) => refused_line(number),
    }
}

// Writes the lines of a feed's answer, if the buffer has room, and answers how many bytes it wrote.
pub fn feed_lines(a: Answer, dropped: Tickets, out: &mut [u8]) -> usize
    ensures { Wrote (feed_lines (event_of a.event a.setup a.iso dropped)) out.old out.new result }
{
    event_text(a.event, dropped).put(out)
}

// The same of a completion, with the ticket and the actual length that were handed over. (An answer by its number, `by_number` of what
// the session says.)
pub fn complete_line(
    ticket: u64,
    actual: u32,
    answer: Result<Returned, u32>,
    out: &mut [u8],
) -> usize
    ensures { Wrote (completion_lines ticket actual (completion_by answer)) out.old out.new result }
{
    let line = match answer {
        Ok(returned) => return_line(ticket, returned.status, actual),
        Err(number) => refused_line(number),
    };
    line.put(out)
}

// The same of a closing.
pub fn close_lines(answer: Result<(), u32>, dropped: Tickets, out: &mut [u8]) -> usize
    ensures { Wrote (close_lines (closing_by answer dropped)) out.old out.new result }
{
    let lines = match answer {
        Ok(()) => with_dropped(Text::begun(b"closed").ended(), dropped),
        Err(number) => refused_line(number),
    };
    lines.put(out)
}

// The last line, with the session's five numbers.
pub fn end_line(n: Numbers, out: &mut [u8]) -> usize
    ensures { Wrote (end_line n) out.old out.new result }
{
    Text::begun(b"end")
        .number(n.accepted)
        .number(n.pending)
        .number(n.returned)
        .number(n.unlinked)
        .number(n.dropped)
        .ended()
        .put(out)
}

// The line of a record that doesn't read.
pub fn bad_tape_line(out: &mut [u8]) -> usize
    ensures { Wrote bad_tape_line out.old out.new result }
{
    write(out, b"bad tape\n")
}
