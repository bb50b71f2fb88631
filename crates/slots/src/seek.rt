// URBs of a lent slice found by a seqnum or by a ticket.
ghost use Rattle.std.specs.Prelude.{◌≡◌, take, drop};
ghost use Rattle.halving.specs.Halving.{halved};
ghost use Rattle.pending.specs.Pending.{tickets, seqnum_of, place_by};
ghost use Rattle.slots.specs.Slots.{place_or};

use crate::part::part;
use halving::Search;
use pending::look::{halve, place_of_seqnum};
use pending::urb::Urb;

// The first of the n from place from on that has a seqnum: its place, counted from there, or n where none has it. (A number for none: what
// is proved of it, SeqnumSeen and KeySeen, speaks of it.)
#[tactic(auto, using(crate::proofs::Seen::sought))]
pub fn seek_seqnum(urbs: &[Urb], from: usize, n: usize, seqnum: u32) -> usize
    ensures { result ≡ place_or n (place_by seqnum_of seqnum (take n (drop from urbs.now))) }
{
    place_of_seqnum(part(urbs, from, n), seqnum).unwrap_or(n)
}

// The one of the n from place from on that has a ticket, by halving: they are in ticket order. Each look reads one ticket.
pub fn seek_ticket(urbs: &[Urb], from: usize, n: usize, ticket: u64) -> Search
    ensures { result ≡ halved ticket (tickets (take n (drop from urbs.now))) }
{
    halve(part(urbs, from, n), ticket)
}
