// Finding a number among numbers that rise, by halving. A look is at one place, the middle of the window where the number can still
// stand, and takes the number that stands there alone: so a search over records, wherever they are kept, reads one field of one record
// for each look. What it finds, and within how many looks, stands in specs/.
#![tactic(auto)]

ghost use Rattle.std.specs.Prelude.{◌≡◌, ◌&&◌, ltb};
ghost use Rattle.halving.specs.Halving.{binary_digits, all_places, middle_of, unsettled, looked};

use std::cmp::Ordering;

// A search: the window is from place low up to place high, and not with it. An empty one is settled: the number was found, and stands
// at low, or it stands nowhere. (`found` stays a flag: what is proved, HalvingLocates and HalvingInside, speaks of it and of low.)
#[repr(C)]
#[derive(Clone, Copy)]
pub struct Search {
    pub low: usize,
    pub high: usize,
    pub found: bool,
}

// How many binary digits a number has; 0 has none.
#[tactic(auto, using(crate::proofs::Digits::digits_none, crate::proofs::Digits::digits_are))]
pub fn binary_digits(n: usize) -> usize
    ensures { result ≡ binary_digits n }
{
    match n.checked_ilog2() {
        Some(power) => power as usize + 1,
        None => 0,
    }
}

impl Search {
    // A search among n: nothing is known yet.
    pub fn all_places(n: usize) -> Search
        ensures { result ≡ all_places n }
    {
        Search {
            low: 0,
            high: n,
            found: false,
        }
    }

    // The place of the next look. (Half of what is between the two is added to the lower: no sum passes the higher.)
    pub fn middle(self) -> usize
        ensures { result ≡ middle_of self }
    {
        self.low + self.high.saturating_sub(self.low) / 2
    }

    // A search with so many looks left goes on.
    pub fn goes_on(self, looks: usize) -> bool
        ensures { result ≡ ltb 0 looks && unsettled self }
    {
        0 < looks && self.low < self.high
    }

    // A look, in a search for a number, at the middle, where another was seen: the window is what is behind the middle or what is before
    // it, or the number is found. A settled search stays as it is.
    #[tactic(auto, unfolding(crate::specs::Halving::looked))]
    pub fn look(self, number: u64, seen: u64) -> Search
        ensures { result ≡ looked number seen self }
    {
        if self.high <= self.low {
            return self;
        }
        let at = self.middle();
        match seen.cmp(&number) {
            Ordering::Less => Search {
                low: at + 1,
                high: self.high,
                found: false,
            },
            Ordering::Greater => Search {
                low: self.low,
                high: at,
                found: false,
            },
            Ordering::Equal => Search {
                low: at,
                high: at,
                found: true,
            },
        }
    }
}
