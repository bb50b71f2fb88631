// Whether a submit's packets are good: each inside the transfer, none before the end of the last; an OUT transfer's without gaps.
ghost use Rattle.std.specs.Prelude.{◌≡◌, eqb};
ghost use Rattle.wire.specs.Codes.{DIR-OUT};
ghost use Rattle.packets.specs.Judging.{end_of, follows, ends_well, packets_good};

use crate::packet::Packet;
use wire::codes::DIR_OUT;

// In 64 bits, where the sum of two numbers of 32 is exact.
fn end_of(p: &Packet) -> u64
    ensures { result ≡ end_of p.now }
{
    p.offset as u64 + p.length as u64
}

// The packet starts where it may, behind one that ends at last, and ends inside the transfer.
fn follows_on(direction: u32, length: u32, last: u64, p: &Packet) -> bool
    ensures { result ≡ follows (eqb direction DIR-OUT) length last p.now }
{
    if (length as u64) < end_of(p) {
        return false;
    }
    if direction == DIR_OUT {
        return p.offset as u64 == last;
    }
    last <= p.offset as u64
}

// The packets may end at last.
fn ends_well(direction: u32, length: u32, last: u64) -> bool
    ensures { result ≡ ends_well (eqb direction DIR-OUT) length last }
{
    direction != DIR_OUT || last == length as u64
}

#[tactic(auto, unfolding(crate::specs::Judging::packets_good))]
pub fn packets_good(direction: u32, length: u32, packets: &[Packet]) -> bool
    ensures { result ≡ packets_good direction length packets.now }
{
    let mut last: u64 = 0;
    for p in packets {
        if !follows_on(direction, length, last, p) {
            return false;
        }
        last = end_of(p);
    }
    ends_well(direction, length, last)
}
