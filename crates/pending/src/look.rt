// What is looked up in the list of pending URBs.
ghost use Rattle.std.specs.Prelude.{◌≡◌, ◌==◌, ◌<◌, length, position, IfSome};
ghost use Rattle.halving.specs.Halving.{halved};
ghost use Rattle.pending.specs.Pending.{seqnum_of, tickets, ticket_place, list_of};
ghost use Rattle.pending.specs.Looks.{seen, place_option, place_for, look_asked};

use crate::list::Pending;
use crate::urb::Urb;
use halving::{Search, binary_digits};
use limits::MAX_PACKETS;
use messages::message::Transfer;
use packets::packet::Packet;

// What is looked up: the URB with a seqnum, the URB with a ticket.
#[derive(Clone, Copy)]
pub enum Key {
    Seqnum(u32),
    Ticket(u64),
}

// The URB that has the key: its place, its ticket, its transfer and its packets.
#[derive(Clone, Copy)]
pub struct Look {
    pub place: usize,
    pub ticket: u64,
    pub transfer: Transfer,
    pub iso: [Packet; MAX_PACKETS],
}

impl Look {
    // What is seen of the URB at a place.
    pub fn at(place: usize, u: &Urb) -> Look
        ensures { result ≡ seen place u.now }
    {
        Look {
            place,
            ticket: u.ticket,
            transfer: u.transfer,
            iso: u.iso,
        }
    }
}

// The place of the first that has a seqnum.
pub fn place_of_seqnum(urbs: &[Urb], seqnum: u32) -> Option<usize>
    ensures place { result ≡ position (λ u. seqnum_of u == seqnum) urbs.now }
    ensures inside { IfSome result (λ i. i < length urbs.now) }
{
    urbs.iter().position(|u| u.transfer.seqnum == seqnum)
}

// The search for a ticket, by halving: the URBs are in ticket order. Each look reads the ticket of one URB.
pub fn halve(urbs: &[Urb], ticket: u64) -> Search
    ensures { result ≡ halved ticket (tickets urbs.now) }
{
    // A plain loop: it ends once the search is settled, and `left` is what it may still look.
    let n = urbs.len();
    let mut left = binary_digits(n);
    let mut s = Search::all_places(n);
    while s.goes_on(left) {
        let at = s.middle();
        s = s.look(ticket, urbs[at].ticket);
        left -= 1;
    }
    s
}

// The place of the one that has a ticket.
#[tactic(auto, using(crate::proofs::Halving::found_inside))]
pub fn place_of_ticket(urbs: &[Urb], ticket: u64) -> Option<usize>
    ensures place { result ≡ place_option (ticket_place ticket urbs.now) }
    ensures inside { IfSome result (λ i. i < length urbs.now) }
{
    let s = halve(urbs, ticket);
    if s.found { Some(s.low) } else { None }
}

// The place of the one that has the key.
fn place_of(urbs: &[Urb], key: Key) -> Option<usize>
    ensures place { result ≡ place_option (place_for urbs.now key) }
    ensures inside { IfSome result (λ i. i < length urbs.now) }
{
    match key {
        Key::Seqnum(seqnum) => place_of_seqnum(urbs, seqnum),
        Key::Ticket(ticket) => place_of_ticket(urbs, ticket),
    }
}

impl Pending {
    // The one that has the key; where nothing is looked up, none.
    #[tactic(auto, using(crate::proofs::Finding::look_unplaced, crate::proofs::Finding::look_placed))]
    pub fn look(self, key: Option<Key>) -> Option<Look>
        ensures { result ≡ look_asked (list_of self) key }
    {
        let key = key?;
        let urbs = self.as_slice();
        let place = place_of(urbs, key)?;
        Some(Look::at(place, &urbs[place]))
    }
}
