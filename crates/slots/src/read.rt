// The URBs of a lent slice, read.
ghost use Rattle.std.specs.Prelude.{◌≡◌, min, length, take, drop, get_or};
ghost use Rattle.limits.specs.Limits.{MAX-PENDING};
ghost use Rattle.ground.specs.Writing.{over};
ghost use Rattle.ages.specs.Ages.{stale_in};
ghost use Rattle.pending.specs.Pending.{blank, tickets};

use crate::part::part;
use ages::put_stale;
use limits::MAX_PENDING;
use pending::list::put_tickets;
use pending::urb::Urb;

// Past the end a blank one is read.
pub fn get_at(urbs: &[Urb], place: usize) -> Urb
    ensures { result ≡ get_or urbs.now place blank }
{
    urbs.get(place).copied().unwrap_or(Urb::blank())
}

// The tickets of the first n from place from on go to the front of `out`, as many as it has room for; what stands behind them stays.
pub fn tickets_in(urbs: &[Urb], from: usize, n: usize, out: &mut [u64; MAX_PENDING])
    ensures { out.new ≡ over (tickets (take (min n MAX-PENDING) (drop from urbs.now))) out.old }
{
    put_tickets(part(urbs, from, n.min(MAX_PENDING)), out);
}

// Of the first n from place from on, and no more than `out` has room for, the tickets of the stale ones go to its front, in order; what stands
// behind them stays. It answers how many they are.
pub fn stale_in(
    urbs: &[Urb],
    from: usize,
    n: usize,
    time: u32,
    limit: u32,
    out: &mut [u64; MAX_PENDING],
) -> usize
    ensures { let ts = tickets (stale_in time limit (take (min n MAX-PENDING) (drop from urbs.now))) in
        (out.new ≡ over ts out.old) × (result ≡ length ts) }
{
    put_stale(part(urbs, from, n.min(MAX_PENDING)), time, limit, out)
}
