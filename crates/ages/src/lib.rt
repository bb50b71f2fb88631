// The ages of pending URBs on a clock of 32 bits that wraps, and the tickets of those that are stale. What each function gives stands in
// specs/.
#![tactic(auto)]

ghost use Rattle.std.specs.Prelude.{◌≡◌, ◌≤◌, length, nat_le};
ghost use Rattle.limits.specs.Limits.{MAX-PENDING};
ghost use Rattle.ground.specs.Writing.{over};
ghost use Rattle.pending.specs.Pending.{tickets, list_of, listing};
ghost use Rattle.ages.specs.Ages.{age_at, stale_in};

use limits::MAX_PENDING;
use pending::list::{Pending, Tickets};
use pending::urb::Urb;

// The milliseconds from an arrival to a time. The clock may have wrapped between them, and so does the subtraction.
#[tactic(auto, unfolding(crate::specs::Ages::age_at))]
fn age(time: u32, arrival: u32) -> u32
    ensures { result ≡ age_at time arrival }
{
    time.wrapping_sub(arrival)
}

// What arrived then is old if its age is at least the limit.
pub fn is_old(arrival: u32, time: u32, limit: u32) -> bool
    ensures { result ≡ nat_le limit (age_at time arrival) }
{
    limit <= age(time, arrival)
}

// The tickets of the stale ones of a list go to the front of `out`, in order; what stands behind them stays. It answers how many they are.
// (The bound is the room of `out`, which has a fixed place.)
pub fn put_stale(urbs: &[Urb], time: u32, limit: u32, out: &mut [u64; MAX_PENDING]) -> usize
    requires { length urbs.now ≤ MAX-PENDING }
    ensures { let us = stale_in time limit urbs.now in (out.new ≡ over (tickets us) out.old) × (result ≡ length us) }
{
    let mut n = 0;
    for u in urbs {
        if is_old(u.arrival, time, limit) {
            out[n] = u.ticket;
            n += 1;
        }
    }
    n
}

// The tickets of the stale ones of a list, lowest place first.
pub fn stale_tickets(list: Pending, time: u32, limit: u32) -> Tickets
    ensures { result ≡ listing (stale_in time limit (list_of list)) }
{
    let mut tickets = [0; MAX_PENDING];
    let count = put_stale(list.as_slice(), time, limit, &mut tickets);
    Tickets { tickets, count }
}
