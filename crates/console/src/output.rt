// The lines on their way to standard output. Writer, buffer and length stay apart: the rest of the buffer is lent to a record's lines.
ghost use Rattle.std.specs.Prelude.{◌≤◌, IfOk, OnErr, length};
ghost use Rattle.console.specs.declared.output.TheConstants.{FULL};

use std::io;
use std::io::Write;

// The output buffer, and how full it gets before it is printed. What is left then has room for the lines of a record: 353 messages
// of 48 bytes fill one, and a submit is traced in at most 250 bytes, two for each byte of its data and 32 for each packet.
pub(crate) const OUTPUT_LEN: usize = 262_144;

const FULL: usize = 131_072;

// Prints the front of the buffer.
pub(crate) fn flush<W: Write>(writer: &mut W, out: &[u8], len: usize) -> io::Result<()>
    ensures { OnErr result (len ≤ length out.now) }
{
    if len <= out.len() {
        writer.write_all(&out[..len])?;
    }
    Ok(())
}

// Makes room for the lines of a record: how far the buffer is filled then.
pub(crate) fn make_room<W: Write>(writer: &mut W, out: &[u8], len: usize) -> io::Result<usize>
    ensures ok { IfOk result (λ n. n ≤ len) }
    ensures err { OnErr result (FULL ≤ len) }
{
    if len < FULL {
        return Ok(len);
    }
    flush(writer, out, len)?;
    Ok(0)
}
