// Numbers as text.
ghost use Rattle.ground.specs.Writing.{Wrote};
ghost use Rattle.numerals.specs.Digits.{status_text, hex_of, decimal as digitsOf};

use ground::writing::write;
use hex::encode_to_slice;
use itoa::Buffer;

// The digits of a byte.
pub(crate) const PAIR: usize = 2;

// Writes a number in decimal at the front of a buffer, if it has room, and answers how many bytes it wrote.
#[tactic(auto, using(crate::proofs::Numbers::decimal_is))]
pub fn decimal(n: u64, out: &mut [u8]) -> usize
    ensures { Wrote (digitsOf n) out.old out.new result }
{
    write(out, Buffer::new().format(n).as_bytes())
}

// The same of a status, which its 32 bits stand for, with its sign.
#[tactic(auto, using(crate::proofs::Numbers::status_is))]
pub fn signed(status: u32, out: &mut [u8]) -> usize
    ensures { Wrote (status_text status) out.old out.new result }
{
    write(out, Buffer::new().format(status.cast_signed()).as_bytes())
}

// Writes bytes in hexadecimal at the front of a buffer, if it has room, and answers how many bytes it wrote.
pub fn hex(bytes: &[u8], out: &mut [u8]) -> usize
    ensures { Wrote (hex_of bytes.now) out.old out.new result }
{
    if out.len() / PAIR < bytes.len() {
        return 0;
    }
    let size = bytes.len() * PAIR;
    encode_to_slice(bytes, &mut out[..size]).unwrap();
    size
}
