// Sending a reply without copying it: which part of the header, of the device's data or of the descriptors goes out next.
#![tactic(auto)]

ghost use Rattle.std.specs.Prelude.{◌≡◌, ◌+◌, ltb, take, drop};
ghost use Rattle.wire.specs.Codes.{HEADER-LEN};
ghost use Rattle.transmit.specs.Part.{behind, part_of, wire_length};

use ground::part::front;
use wire::codes::{DESCRIPTOR_LEN, DIR_IN, HEADER_LEN};

// The bytes of `s` from `at` on, at most `most` of them. (No sum of the two, which could wrap. `slots` has the same of URBs: a line
// each over `front`.)
fn window(s: &[u8], at: usize, most: usize) -> &[u8]
    ensures { result.now ≡ take most (drop at s.now) }
{
    front(&s[at.min(s.len())..], most)
}

// A header buffer of `len` bytes has no room for the header and `p` descriptors behind it. (By a quotient, so that nothing wraps.)
fn too_short(len: usize, p: usize) -> bool
    ensures { result ≡ ltb len (HEADER-LEN + behind p) }
{
    len < HEADER_LEN || (len - HEADER_LEN) / DESCRIPTOR_LEN < p
}

// The part of a reply that goes out next, when `sent` bytes are out and at most `most` may go: of the header first, then
// of the first `n` bytes of `data`, then of the `p` descriptors behind the header. A part is lent from one of the three, so
// none runs on from one into the next.
// (`n` and `p` stand beside the slices, as C hands them over: its buffers may be longer, or too short.)
pub fn part<'a>(
    header: &'a [u8],
    data: &'a [u8],
    n: usize,
    p: usize,
    sent: usize,
    most: usize,
) -> &'a [u8]
    ensures { result.now ≡ part_of header.now «data».now n p sent most }
{
    if too_short(header.len(), p) {
        return &header[..0];
    }
    if data.len() < n {
        return &header[..0];
    }
    if sent < HEADER_LEN {
        return window(&header[..HEADER_LEN], sent, most);
    }
    let past = sent - HEADER_LEN;
    if past < n {
        return window(&data[..n], past, most);
    }
    let end = HEADER_LEN + p * DESCRIPTOR_LEN;
    window(&header[HEADER_LEN..end], past - n, most)
}

// How many bytes the reply to a completion has on the wire: data follows the header for IN only, then come `p` descriptors.
pub fn wire_length(direction: u32, actual: u32, p: u32) -> u64
    ensures { result ≡ wire_length direction actual p }
{
    let data = if direction == DIR_IN { actual } else { 0 };
    HEADER_LEN as u64 + data as u64 + p as u64 * DESCRIPTOR_LEN as u64
}
