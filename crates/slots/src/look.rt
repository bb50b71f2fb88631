// What is seen of a URB that was sought in a lent slice, as the list of pending URBs has it.
ghost use Rattle.std.specs.Prelude.{◌≡◌, ltb};
ghost use Rattle.slots.specs.Slots.{count_wanted, seqnum_wanted, seen_at};

use halving::Search;
use pending::look::{Key, Look};
use pending::urb::Urb;

// How many of a list that has count are looked through for a key's seqnum: none where there is no key, or it has no seqnum.
pub fn count_wanted(key: Option<Key>, count: usize) -> usize
    ensures { result ≡ count_wanted key count }
{
    match key {
        Some(Key::Seqnum(_)) => count,
        Some(Key::Ticket(_)) | None => 0,
    }
}

// A key's seqnum, or 0.
pub fn seqnum_wanted(key: Option<Key>) -> u32
    ensures { result ≡ seqnum_wanted key }
{
    match key {
        Some(Key::Seqnum(q)) => q,
        Some(Key::Ticket(_)) | None => 0,
    }
}

// A URB that was found at a place, or none. (A flag beside a place, as SeqnumSeen, TicketSeen and
// KeySeen have it.)
pub fn look_at(found: bool, place: usize, u: Urb) -> Option<Look>
    ensures { result ≡ seen_at found place u }
{
    if found {
        Some(Look::at(place, &u))
    } else {
        None
    }
}

// `seek_seqnum` was given n and said a place; u is the URB there.
pub fn look_seqnum(place: usize, n: usize, u: Urb) -> Option<Look>
    ensures { result ≡ seen_at (ltb place n) place u }
{
    look_at(place < n, place, u)
}

// `seek_ticket` said s; u is the URB at its place.
pub fn look_ticket(s: Search, u: Urb) -> Option<Look>
    ensures { result ≡ seen_at s.found s.low u }
{
    look_at(s.found, s.low, u)
}
