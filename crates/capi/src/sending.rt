// The sending step. A C function can't hand back a reference, so that the part is given as numbers.
ghost use Rattle.std.specs.Prelude.{◌≡◌, length};
ghost use Rattle.transmit.specs.Part.{part_of};
ghost use Rattle.capi.specs.Flat.{part_row, flat_part, bytes_at};

use wire::codes::HEADER_LEN;

// The slices that a part may be of: numbers, as the C header has them.
pub const OF_HEADER: u32 = 0;

pub const OF_PAYLOAD: u32 = 1;

// A part: so many bytes at a place of the header or of the payload.
#[repr(C)]
#[derive(Clone, Copy)]
pub struct FlatPart {
    pub slice: u32,
    pub at: usize,
    pub length: usize,
}

fn part_at(slice: u32, at: usize, length: usize) -> FlatPart
    ensures { result ≡ part_row slice at length }
{
    FlatPart {
        slice: slice,
        at: at,
        length: length,
    }
}

#[unsafe(no_mangle)]
pub extern "C" fn rimemaple_part<'a>(
    header: &'a [u8],
    payload: &'a [u8],
    n: usize,
    packets: usize,
    sent: usize,
    most: usize,
) -> FlatPart
    ensures value { result ≡ flat_part (length (part_of header.now payload.now n packets sent most)) n sent }
    ensures payload_value { bytes_at result header.now payload.now ≡ part_of header.now payload.now n packets sent most }
{
    let part = transmit::part(header, payload, n, packets, sent, most);
    let length = part.len();
    if length == 0 {
        return part_at(OF_HEADER, 0, 0);
    }
    if sent < HEADER_LEN {
        return part_at(OF_HEADER, sent, length);
    }
    if sent - HEADER_LEN < n {
        return part_at(OF_PAYLOAD, sent - HEADER_LEN, length);
    }
    part_at(OF_HEADER, sent - n, length)
}
