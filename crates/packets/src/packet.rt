// The packets that a submit's descriptors say.
ghost use Rattle.std.specs.Prelude.{◌≡◌, [], ◌+◌, ◌≤◌, length};
ghost use Rattle.limits.specs.Limits.{MAX-PACKETS};
ghost use Rattle.wire.specs.Codes.{DESCRIPTOR-LEN};
ghost use Rattle.packets.specs.Packets.{packet_at, packets_of, in_array};

use limits::{DESCRIPTORS_LEN, MAX_PACKETS};
use wire::codes::{DESCRIPTOR_LEN, PACKET_LENGTH_AT, PACKET_OFFSET_AT};
use wire::number::BigEndian;

#[repr(C)]
#[derive(Clone, Copy, Default)]
pub struct Packet {
    pub offset: u32,
    pub length: u32,
}

// The packet whose descriptor starts at an offset.
fn packet_at(descriptors: &[u8], at: usize) -> Packet
    requires { at + DESCRIPTOR-LEN ≤ length descriptors.now }
    ensures { result ≡ packet_at at descriptors.now }
{
    Packet {
        offset: u32::read(descriptors, at + PACKET_OFFSET_AT),
        length: u32::read(descriptors, at + PACKET_LENGTH_AT),
    }
}

// What stands in the place of packets where there are none.
pub fn no_packets() -> [Packet; MAX_PACKETS]
    ensures { result ≡ in_array [] }
{
    [Packet::default(); MAX_PACKETS]
}

// The first count packets, and blank ones behind them. (The count is a number of the wire: no slice has it.)
#[tactic(auto, using(crate::proofs::Reading::read_more))]
pub fn read_packets(descriptors: [u8; DESCRIPTORS_LEN], count: usize) -> [Packet; MAX_PACKETS]
    requires { count ≤ MAX-PACKETS }
    ensures { result ≡ in_array (packets_of count descriptors) }
{
    let mut out = no_packets();
    for (i, place) in out[..count].iter_mut().enumerate() {
        *place = packet_at(&descriptors, i * DESCRIPTOR_LEN);
    }
    out
}
