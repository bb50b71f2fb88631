// Changes of the URBs of a lent slice.
ghost use Rattle.std.specs.Prelude.{◌≡◌, set};
ghost use Rattle.pending.specs.Changes.{moved};
ghost use Rattle.slots.specs.Slots.{blanked_from};

use pending::change;
use pending::urb::Urb;

// Past the end nothing is put.
pub fn put_at(urbs: &mut [Urb], place: usize, u: Urb)
    ensures { urbs.new ≡ set urbs.old place u }
{
    if place < urbs.len() {
        urbs[place] = u;
    }
}

// Those behind place from, up to place last, one place down; nothing moves where last is no place.
pub fn shift_down(urbs: &mut [Urb], from: usize, last: usize)
    ensures { urbs.new ≡ moved from last urbs.old }
{
    change::shift_down(urbs, from, last);
}

// The first n places from place from on blank.
pub fn blank_first(urbs: &mut [Urb], from: usize, n: usize)
    ensures { urbs.new ≡ blanked_from from n urbs.old }
{
    let start = from.min(urbs.len());
    change::blank_first(&mut urbs[start..], n);
}
