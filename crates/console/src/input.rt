// The tape as it comes in: a window of it in a buffer.
ghost use Rattle.std.specs.Prelude.{◌+◌, ◌≤◌, ◌≡◌, IfOk, OnErr, length, take, drop};
ghost use Rattle.std.specs.Io.{ReadsAtMost};
ghost use Rattle.tape.specs.Layout;
ghost use Rattle.console.specs.Windows.{Inside, Refilled, Unread};

use std::io;
use std::io::Read;
use tape::layout::MAX_RECORD_LEN;
use tape::reader::wanted;

// Some of the longest records.
pub(crate) const INPUT_LEN: usize = 4 * MAX_RECORD_LEN;

// The bytes from `at` up to `end` are there; over: the input has ended. No BufReader: that reads only once its buffer is used up, so that
// a record across the buffer's end would not stand in one piece.
#[derive(Clone, Copy, Default)]
pub struct Window {
    pub at: usize,
    pub end: usize,
    pub over: bool,
}

// Reads until the buffer is full or the input has ended: how many bytes came in. A plain loop: std's read_exact doesn't say how many
// those are where the input ends.
fn read_full<R: Read>(reader: &mut R, buf: &mut [u8]) -> io::Result<usize>
    ensures { ReadsAtMost result buf.new }
{
    let mut done = 0;
    while done < buf.len() {
        let n = reader.read(&mut buf[done..])?;
        if n == 0 {
            return Ok(done);
        }
        done += n;
    }
    Ok(done)
}

// Reads on where the record at the front isn't all there.
pub(crate) fn refill<R: Read>(reader: &mut R, buf: &mut [u8], w: Window) -> io::Result<Window>
    requires { Inside w buf.old × (Layout.MAX-RECORD-LEN ≤ length buf.old) }
    ensures ok { IfOk result (λ r. Refilled w r buf.old buf.new) }
    ensures err { OnErr result (Unread w buf.old buf.new) }
{
    let at = w.at;
    let end = w.end;
    let left = end - at;
    if w.over {
        return Ok(w);
    }
    if wanted(&buf[at..end]) <= left {
        return Ok(w);
    }
    buf.copy_within(at..end, 0);
    let len = buf.len();
    let got = read_full(reader, &mut buf[left..len])?;
    let have = left + got;
    Ok(Window {
        at: 0,
        end: have,
        over: have < len,
    })
}
