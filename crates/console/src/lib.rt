// The loop of the programs `replay` and `trace`: a tape from standard input is played record by record, and the lines go to
// standard output. What a record is, does and prints stands in `tape` and `player`; here is only what reads and writes.
#![tactic(auto)]

mod input;
mod output;

ghost use Rattle.std.specs.Prelude.{◌≤◌, length};
ghost use Rattle.tape.specs.Layout;

use crate::input::{INPUT_LEN, Window, refill};
use crate::output::{OUTPUT_LEN, flush, make_room};
use limits::{REPLY_LEN, WORK_LEN};
use lines::replay::{bad_tape_line, end_line};
use player::record::play_record;
use session::state::Session;
use std::io;
use tape::layout::MAX_RECORDS;
use tape::reader::{read_next, record_len};
use tape::table::tape_table;

// Prints the lines in the buffer, and that a record doesn't read.
fn print_bad_tape<W: io::Write>(writer: &mut W, out: &mut [u8], len: usize) -> io::Result<()> {
    flush(writer, out, len)?;
    let n = bad_tape_line(out);
    flush(writer, out, n)
}

// Plays the records of the tape, and gives the session that they leave.
#[tactic(auto, using(crate::proofs::Whole::next_whole))]
fn play_records<R: io::Read, W: io::Write>(
    reader: &mut R,
    writer: &mut W,
    session: Session,
    traced: bool,
    input: &mut [u8],
    work: &mut [u8],
    reply: &mut [u8],
    out: &mut [u8],
) -> io::Result<Session>
    requires { Layout.MAX-RECORD-LEN ≤ length input.old }
{
    let mut s = session;
    let mut window = Window::default();
    let mut len = 0;
    // The place past the last record is looked at, too: a byte there doesn't read.
    for n in 0..=MAX_RECORDS {
        window = refill(reader, input, window)?;
        let Window { at, end, .. } = window;
        if at == end {
            flush(writer, out, len)?;
            return Ok(s);
        }
        let Some(r) = read_next(n, &input[at..end]) else {
            print_bad_tape(writer, out, len)?;
            return Ok(s);
        };
        len = make_room(writer, out, len)?;
        let played = play_record(s, traced, r, &input[at..end], work, reply, &mut out[len..]);
        s = played.session;
        len += played.len;
        window.at += record_len(r);
    }
    Ok(s)
}

// Plays the tape on standard input; traced: with every byte visible. A read or a write that fails ends it.
pub fn play_tape<R: Input + Print>(rt: &R, traced: bool) -> io::Result<()> {
    let mut input = [0u8; INPUT_LEN];
    let mut work = [0u8; WORK_LEN];
    let mut reply = [0u8; REPLY_LEN];
    let mut out = [0u8; OUTPUT_LEN];
    let mut reader = rt.reader();
    let mut writer = io::writer(rt);
    let opened = Session::open(tape_table());
    let last = play_records(
        &mut reader,
        &mut writer,
        opened.session,
        traced,
        &mut input,
        &mut work,
        &mut reply,
        &mut out,
    )?;
    let n = end_line(last.numbers(), &mut out);
    flush(&mut writer, &out, n)
}
