// A part of a slice: the first n from place `from` on, as many as there are. (`transmit::window` says the same of bytes: a
// line each over `front`.)
ghost use Rattle.std.specs.Prelude.{◌≡◌, take, drop};

use ground::part::front;
use pending::urb::Urb;

pub fn part(urbs: &[Urb], from: usize, n: usize) -> &[Urb]
    ensures { result.now ≡ take n (drop from urbs.now) }
{
    front(&urbs[from.min(urbs.len())..], n)
}
