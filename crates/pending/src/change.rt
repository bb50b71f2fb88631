// The changes of the list of pending URBs.
ghost use Rattle.std.specs.Prelude.{◌≡◌};
ghost use Rattle.pending.specs.Changes.{moved, blanked, changed, keeps, appends, removes, clears};

use crate::list::Pending;
use crate::urb::Urb;
use limits::MAX_PENDING;

// A change of the list: the URBs behind place `from`, up to place `last`, move down by one; then a URB is set at a place, where
// there is such a place; then the first `dropped` places are blank; and the list has `count` URBs.
// (One record, and a place past the array for none: docs/DECISIONS.md, "One change".)
#[repr(C)]
#[derive(Clone, Copy)]
pub struct Change {
    pub from: usize,
    pub last: usize,
    pub place: usize,
    pub urb: Urb,
    pub dropped: usize,
    pub count: usize,
}

// Those behind place from, up to place last, one place down; nothing moves where last is no place.
pub fn shift_down(urbs: &mut [Urb], from: usize, last: usize)
    ensures { urbs.new ≡ moved from last urbs.old }
{
    if from < last && last < urbs.len() {
        urbs.copy_within(from + 1..=last, from);
    }
}

// The first n places blank.
pub fn blank_first(urbs: &mut [Urb], n: usize)
    ensures { urbs.new ≡ blanked n urbs.old }
{
    let end = n.min(urbs.len());
    urbs[..end].fill(Urb::blank());
}

impl Change {
    // The list stays as it is.
    pub fn keep(count: usize) -> Change
        ensures { result ≡ keeps count }
    {
        Change {
            from: 0,
            last: 0,
            place: MAX_PENDING,
            urb: Urb::blank(),
            dropped: 0,
            count,
        }
    }

    // One more at the end, where there is room.
    #[tactic(auto, unfolding(crate::specs::Changes::appends))]
    pub fn append(count: usize, urb: Urb) -> Change
        ensures { result ≡ appends count urb }
    {
        if MAX_PENDING <= count {
            return Change::keep(count);
        }
        Change {
            place: count,
            urb,
            ..Change::keep(count + 1)
        }
    }

    // The URB at a place taken out, if there is one: those behind it move down, and the freed place is blank.
    #[tactic(auto, unfolding(crate::specs::Changes::removes))]
    pub fn remove(count: usize, place: usize) -> Change
        ensures { result ≡ removes count place }
    {
        if count <= place || MAX_PENDING < count {
            return Change::keep(count);
        }
        let last = count - 1;
        Change {
            from: place,
            last,
            place: last,
            ..Change::keep(last)
        }
    }

    // All taken out, and their places blank.
    pub fn clear(count: usize) -> Change
        ensures { result ≡ clears count }
    {
        Change {
            dropped: count,
            ..Change::keep(0)
        }
    }
}

impl Pending {
    // The list after a change.
    pub fn changed(mut self, c: Change) -> Pending
        ensures { result ≡ changed self c }
    {
        shift_down(&mut self.urbs, c.from, c.last);
        if c.place < MAX_PENDING {
            self.urbs[c.place] = c.urb;
        }
        blank_first(&mut self.urbs, c.dropped);
        self.count = c.count;
        self
    }
}
