// Replies: the head of a reply to a request, and the headers USBIP_RET_SUBMIT and USBIP_RET_UNLINK.
ghost use Rattle.std.specs.Prelude.{◌≡◌};
ghost use Rattle.wire.specs.BigEndian.{bytes_of};
ghost use Rattle.ground.specs.Lists.{joined};
ghost use Rattle.messages.specs.Messages.{reply_head, ret_submit, ret_unlink};
ghost use Rattle.ground.specs.Writing.{Wrote};

use ground::writing::write;
use wire::codes::{OP_LEN, RET_SUBMIT, RET_UNLINK, VERSION, WORDS};
use wire::number::BigEndian;

// The fields of a USBIP_RET_SUBMIT that aren't 0: actual is actual_length, start start_frame, packets number_of_packets, errors
// error_count.
#[derive(Clone, Copy)]
pub struct RetSubmit {
    pub seqnum: u32,
    pub status: u32,
    pub actual: u32,
    pub start: u32,
    pub packets: u32,
    pub errors: u32,
}

// The fields of a USBIP_RET_UNLINK that aren't 0.
#[derive(Clone, Copy)]
pub struct RetUnlink {
    pub seqnum: u32,
    pub status: u32,
}

// The head of a reply to a request.
pub fn reply_head(code: u16, status: u32) -> [u8; OP_LEN]
    ensures { result ≡ reply_head code status }
{
    let v = VERSION.to_bytes();
    let c = code.to_bytes();
    let s = status.to_bytes();
    [v[0], v[1], c[0], c[1], s[0], s[1], s[2], s[3]]
}

// A header from its twelve words.
fn write_header(out: &mut [u8], words: [u32; WORDS]) -> usize
    ensures { Wrote (joined (bytes_of 4) words) out.old out.new result }
{
    let header = words.map(u32::to_bytes);
    write(out, header.as_flattened())
}

// Writes a USBIP_RET_SUBMIT at the front of a buffer, if it has room, and answers how many bytes it wrote.
pub fn write_ret_submit(out: &mut [u8], r: RetSubmit) -> usize
    ensures { Wrote (ret_submit r) out.old out.new result }
{
    let words = [
        RET_SUBMIT, r.seqnum, 0, 0, 0, r.status, r.actual, r.start, r.packets, r.errors, 0, 0,
    ];
    write_header(out, words)
}

// Writes a USBIP_RET_UNLINK at the front of a buffer, if it has room, and answers how many bytes it wrote.
pub fn write_ret_unlink(out: &mut [u8], r: RetUnlink) -> usize
    ensures { Wrote (ret_unlink r) out.old out.new result }
{
    let words = [RET_UNLINK, r.seqnum, 0, 0, 0, r.status, 0, 0, 0, 0, 0, 0];
    write_header(out, words)
}
