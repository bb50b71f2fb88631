// A USBIP_RET_SUBMIT with the descriptors behind its 48 bytes: the one writer for a completion and for a submit that is refused.
#![tactic(auto)]

ghost use Rattle.ground.specs.Writing.{Wrote};
ghost use Rattle.replies.specs.Replies.{submit_reply};

use descriptors::write_descriptors;
use messages::reply::{RetSubmit, write_ret_submit};
use packets::packet::Packet;
use results::PacketResult;
use wire::codes::{DESCRIPTOR_LEN, HEADER_LEN};

// Writes both at the front of a buffer, if it has room for all, and answers how many bytes it wrote.
pub fn write_submit_reply(
    out: &mut [u8],
    ret: RetSubmit,
    iso: &[Packet],
    results: &[PacketResult],
) -> usize
    ensures { Wrote (submit_reply ret iso.now results.now) out.old out.new result }
{
    // By the quotient, since the product might not fit.
    if out.len() < HEADER_LEN || (out.len() - HEADER_LEN) / DESCRIPTOR_LEN < results.len() {
        return 0;
    }
    write_ret_submit(out, ret);
    write_descriptors(&mut out[HEADER_LEN..], iso, results);
    HEADER_LEN + results.len() * DESCRIPTOR_LEN
}
