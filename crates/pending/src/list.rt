// The list of pending URBs, in an array with a count.
ghost use Rattle.std.specs.Prelude.{◌≡◌, ◌≤◌, length, take};
ghost use Rattle.limits.specs.Limits.{MAX-PENDING};
ghost use Rattle.ground.specs.Writing.{over};
ghost use Rattle.pending.specs.Pending.{list_of, tickets, empty_pending, listing};

use crate::urb::Urb;
use ground::part::front;
use limits::MAX_PENDING;

// The first count URBs are the list. (An array and a count: C holds it in a session.)
#[repr(C)]
#[derive(Clone, Copy)]
pub struct Pending {
    pub urbs: [Urb; MAX_PENDING],
    pub count: usize,
}

// The tickets of a list, and zeros behind them. (An array and a count: C reads it.)
#[repr(C)]
#[derive(Clone, Copy)]
pub struct Tickets {
    pub tickets: [u64; MAX_PENDING],
    pub count: usize,
}

// The tickets of a list go to the front of `out`; what stands behind them stays. (The bound is the room of `out`, which has a fixed place.)
pub fn put_tickets(urbs: &[Urb], out: &mut [u64; MAX_PENDING])
    requires { length urbs.now ≤ MAX-PENDING }
    ensures { out.new ≡ over (tickets urbs.now) out.old }
{
    for (i, u) in urbs.iter().enumerate() {
        out[i] = u.ticket;
    }
}

impl Pending {
    // All places blank.
    pub fn empty() -> Pending
        ensures { result ≡ empty_pending }
    {
        Pending {
            urbs: [Urb::blank(); MAX_PENDING],
            count: 0,
        }
    }

    // How many there are.
    pub fn len(self) -> usize
        ensures { (result ≡ length (list_of self)) × (result ≤ MAX-PENDING) }
    {
        self.count.min(MAX_PENDING)
    }

    // The URBs of the list.
    pub fn as_slice(&self) -> &[Urb]
        ensures { result.now ≡ list_of self.now }
    {
        front(&self.urbs, self.count)
    }

    // The tickets of the first n, lowest place first.
    pub fn tickets(self, n: usize) -> Tickets
        ensures { result ≡ listing (take n (list_of self)) }
    {
        let urbs = front(self.as_slice(), n);
        let mut tickets = [0; MAX_PENDING];
        put_tickets(urbs, &mut tickets);
        Tickets {
            tickets,
            count: urbs.len(),
        }
    }
}
