// The front writer, which every writer of bytes into a buffer goes through.
ghost use Rattle.ground.specs.Writing.{Wrote};

// Writes bytes at the front of a buffer, if it has room for all of them, and answers how many it wrote.
pub fn write(out: &mut [u8], bytes: &[u8]) -> usize
    ensures { Wrote bytes.now out.old out.new result }
{
    if out.len() < bytes.len() {
        return 0;
    }
    let n = bytes.len();
    out[0..n].copy_from_slice(bytes);
    n
}
