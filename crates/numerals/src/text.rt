// Text that is put together by value, and then written to a buffer as a whole: a buffer that is too short stays as it is.
ghost use Rattle.std.specs.Prelude.{[], ◌++◌, ◌+◌, ◌≤◌, length};
ghost use Rattle.ground.specs.Writing.{Wrote};
ghost use Rattle.numerals.specs.Digits.{ascii, decimal, status_text, hex_of};
ghost use Rattle.numerals.specs.Texts.{TEXT-LEN, FIELD-LEN, text_of, TextHolds, HasRoom, Adds};

use crate::number::{PAIR, hex};
use ground::writing::write;
use itoa::{Buffer, Integer};
use limits::MAX_PACKETS;

// The most that a word, a field and a line of all packets take, and a text: the longest that there is, as in specs/Texts.antt.
const WORD_LEN: usize = 8;

const FIELD_LEN: usize = 22;

const PACKETS_LEN: usize = WORD_LEN + MAX_PACKETS * (2 * FIELD_LEN) + 1;

const TEXT_LEN: usize = PACKETS_LEN;

// The first len bytes are the text. (A plain array with a length: no heap, and the kit's ArrayString takes text alone, its ArrayVec isn't Copy.
// It is plain data, which anyone can make: so `begun`, `put` and `put_bytes` ask for a length.)
#[derive(Clone, Copy)]
pub struct Text {
    pub bytes: [u8; TEXT_LEN],
    pub len: usize,
}

impl Text {
    #[tactic(auto, unfolding(crate::specs::Texts::text_of))]
    pub fn empty() -> Text
        ensures { TextHolds result [] 0 }
    {
        Text {
            bytes: [0u8; TEXT_LEN],
            len: 0,
        }
    }

    // The word that a line begins with.
    pub fn begun(word: &[u8]) -> Text
        requires { length word.now ≤ TEXT-LEN }
        ensures { TextHolds result word.now (length word.now) }
    {
        Text::empty().added(word)
    }

    #[tactic(auto, unfolding(crate::specs::Texts::text_of))]
    pub fn added(mut self, more: &[u8]) -> Text
        requires { HasRoom self (length more.now) }
        ensures { Adds self result more.now (length more.now) }
    {
        let len = self.len;
        self.bytes[len..len + more.len()].copy_from_slice(more);
        self.len = len + more.len();
        self
    }

    // One more field: a number.
    #[tactic(auto, using(crate::proofs::Numbers::decimal_is))]
    pub fn number(self, n: u64) -> Text
        requires { HasRoom self FIELD-LEN }
        ensures { Adds self result (ascii " " ++ decimal n) FIELD-LEN }
    {
        self.field(n)
    }

    // One more field: a status, in its 32 bits.
    #[tactic(auto, using(crate::proofs::Numbers::status_is))]
    pub fn status(self, status: u32) -> Text
        requires { HasRoom self FIELD-LEN }
        ensures { Adds self result (ascii " " ++ status_text status) FIELD-LEN }
    {
        self.field(status.cast_signed())
    }

    fn field<I: Integer>(self, n: I) -> Text
        requires { HasRoom self (1 + I.MAX_STR_LEN) }
        ensures { Adds self result (ascii " " ++ I.text n) (1 + I.MAX_STR_LEN) }
    {
        self.added(b" ").added(Buffer::new().format(n).as_bytes())
    }

    // The line ends.
    pub fn ended(self) -> Text
        requires { HasRoom self 1 }
        ensures { Adds self result (ascii "\n") 1 }
    {
        self.added(b"\n")
    }

    // Writes the text at the front of a buffer, if it has room, and answers how many bytes it wrote.
    #[tactic(auto, unfolding(crate::specs::Texts::text_of))]
    pub fn put(self, out: &mut [u8]) -> usize
        requires { self.len ≤ TEXT-LEN }
        ensures { Wrote (text_of self) out.old out.new result }
    {
        write(out, &self.bytes[..self.len])
    }

    // Writes the text, bytes in hexadecimal and a newline at the front of a buffer, if it has room, and answers how many bytes
    // it wrote. (The digits go straight to the buffer: they can be too many for a text.)
    pub fn put_bytes(self, bytes: &[u8], out: &mut [u8]) -> usize
        requires { self.len ≤ TEXT-LEN }
        ensures { Wrote ((text_of self ++ hex_of bytes.now) ++ ascii "\n") out.old out.new result }
    {
        let at = self.len;
        let room = out.len();
        if room <= at || (room - at - 1) / PAIR < bytes.len() {
            return 0;
        }
        self.put(out);
        let end = at + hex(bytes, &mut out[at..]);
        write(&mut out[end..], b"\n");
        end + 1
    }
}
