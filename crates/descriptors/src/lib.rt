// The descriptors of a reply. What each is stands in specs/.
#![tactic(auto)]

ghost use Rattle.ground.specs.Writing.{Wrote};
ghost use Rattle.packets.specs.Packets.{packet_in};
ghost use Rattle.descriptors.specs.Descriptors.{described, descriptor, descriptors_of};
ghost use Rattle.std.specs.Prelude.{◌≡◌};

use ground::writing::write;
use packets::packet::Packet;
use results::PacketResult;
use wire::codes::DESCRIPTOR_LEN;
use wire::number::BigEndian;

// The packet at a place of a list; behind its end a blank one.
fn packet_in(iso: &[Packet], i: usize) -> Packet
    ensures { result ≡ packet_in iso.now i }
{
    iso.get(i).copied().unwrap_or_default()
}

fn write_descriptor(out: &mut [u8], p: Packet, r: &PacketResult) -> usize
    ensures { Wrote (descriptor (described p r.now)) out.old out.new result }
{
    let fields = [
        p.offset.to_bytes(),
        p.length.to_bytes(),
        r.actual.to_bytes(),
        r.status.to_bytes(),
    ];
    write(out, fields.as_flattened())
}

// Writes a descriptor for each result at the front of a buffer, if it has room for all, and answers how many bytes it wrote.
#[tactic(auto, unfolding(crate::specs::Descriptors::descriptors_of))]
pub fn write_descriptors(out: &mut [u8], iso: &[Packet], results: &[PacketResult]) -> usize
    ensures { Wrote (descriptors_of iso.now results.now) out.old out.new result }
{
    // By the quotient, since the product might not fit.
    if out.len() / DESCRIPTOR_LEN < results.len() {
        return 0;
    }
    for (i, r) in results.iter().enumerate() {
        write_descriptor(&mut out[i * DESCRIPTOR_LEN..], packet_in(iso, i), r);
    }
    results.len() * DESCRIPTOR_LEN
}
