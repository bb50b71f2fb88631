// What each event of a message does: to the link, to the pending list, and to the reply. So many bytes of the piece are consumed then.
ghost use Rattle.std.specs.Prelude.{◌≡◌};
ghost use Rattle.limits.specs.Limits;
ghost use Rattle.links.specs.Links.{resting};
ghost use Rattle.model.specs.Judging.{record_of, bad_packets};
ghost use Rattle.events.specs.Plans.{hungry_plan, broken_plan, answered_plan, accepted_plan, submitted_plan, unlink_reply, removed_plan, missed_plan};
ghost use Rattle.events.specs.Plans.{unlinked_plan};

use crate::answer::Event;
use crate::plan::{Plan, Reply, plain_plan};
use limits::{ATTACHED, DESCRIPTORS_LEN, MAX_PACKETS};
use links::link::{Link, Progress, Standing, count_plus, resting_link};
use messages::message::{Header, Transfer, iso_count};
use messages::reply::{RetSubmit, RetUnlink};
use packets::judging::packets_good;
use packets::packet::{Packet, read_packets};
use pending::change::Change;
use pending::counts::Counts;
use pending::look::Look;
use pending::urb::Urb;
use verdicts::verdict::{Fault, submit_status};
use wire::status::MINUS_ECONNRESET;

// Nothing is said yet: the message goes on.
pub fn plan_hungry(now: Standing, progress: Progress, consumed: usize) -> Plan
    ensures { result ≡ hungry_plan now.link now.pending progress consumed }
{
    let link = Link {
        progress,
        ..now.link
    };
    plain_plan(
        link,
        Change::keep(now.pending),
        Event::Hungry,
        consumed,
        None,
    )
}

// A break: the session is closed, and what is pending dropped.
pub fn plan_broken(now: Standing, fault: Fault, consumed: usize) -> Plan
    ensures { result ≡ broken_plan now.link now.pending fault consumed }
{
    let change = Change::clear(now.pending);
    plain_plan(now.ended(), change, Event::Break(fault), consumed, None)
}

// The link of a session that is attached, with no message in progress, after a submit or an unlink.
fn attached_link(old: Link, counts: Counts) -> Link
    ensures { result ≡ resting Limits.ATTACHED old.devid counts }
{
    resting_link(ATTACHED, old.devid, counts)
}

// A submit is answered with a status, and the session is as it was, with no message in progress. The reply sends its packets back.
fn plan_answered(
    now: Standing,
    h: Header,
    iso: [Packet; MAX_PACKETS],
    status: u32,
    consumed: usize,
) -> Plan
    ensures { result ≡ answered_plan now.link now.pending h iso status consumed }
{
    let u = h.transfer;
    let ret = RetSubmit {
        seqnum: u.seqnum,
        status: status,
        actual: 0,
        start: u.start,
        packets: u.packets,
        errors: 0,
    };
    let plan = plain_plan(
        attached_link(now.link, now.link.counts),
        Change::keep(now.pending),
        Event::Answer(u.seqnum, status),
        consumed,
        Some(Reply::Submit(ret)),
    );
    Plan { iso, ..plan }
}

// The record of a submit under a ticket; a time is given with the feed that takes its last byte.
fn urb_of(ticket: u64, time: u32, h: Header, iso: [Packet; MAX_PACKETS]) -> Urb
    ensures { result ≡ record_of ticket time h iso }
{
    let transfer = h.transfer;
    let setup = h.setup;
    Urb {
        ticket: ticket,
        transfer: transfer,
        setup: setup,
        arrival: time,
        iso: iso,
    }
}

// A submit is accepted, with the next ticket.
fn plan_accepted(
    now: Standing,
    h: Header,
    iso: [Packet; MAX_PACKETS],
    consumed: usize,
    time: u32,
) -> Plan
    ensures { result ≡ accepted_plan now.link now.pending h iso consumed time }
{
    let c = now.link.counts;
    let ticket = count_plus(c.accepted, 1);
    let counts = Counts {
        accepted: ticket,
        ..c
    };
    let urb = urb_of(ticket, time, h, iso);
    plain_plan(
        attached_link(now.link, counts),
        Change::append(now.pending, urb),
        Event::Submit(urb.ticket, urb.arrival, urb.transfer),
        consumed,
        None,
    )
}

// A submit that has packets is judged by them.
fn bad_packets(u: Transfer, packets: &[Packet]) -> bool
    ensures { result ≡ bad_packets u packets.now }
{
    !packets.is_empty() && !packets_good(u.direction, u.length, packets)
}

// A submit is judged: its last byte is in. The descriptors are the session's own copy.
pub fn plan_submitted(
    now: Standing,
    h: Header,
    descriptors: [u8; DESCRIPTORS_LEN],
    consumed: usize,
    time: u32,
) -> Plan
    ensures { result ≡ submitted_plan now.link now.pending h descriptors consumed time }
{
    let u = h.transfer;
    let count = iso_count(u.packets);
    let iso = read_packets(descriptors, count);
    let bad = bad_packets(u, &iso[..count]);
    match submit_status(
        h,
        now.link.devid,
        bad,
        now.pending,
        now.link.counts.accepted,
    ) {
        Err(status) => plan_answered(now, h, iso, status, consumed),
        Ok(()) => plan_accepted(now, h, iso, consumed, time),
    }
}

// The reply to an unlink.
fn unlink_reply(h: Header, status: u32) -> Reply
    ensures { result ≡ unlink_reply h status }
{
    Reply::Unlink(RetUnlink {
        seqnum: h.transfer.seqnum,
        status: status,
    })
}

// An unlink of the URB that was looked up.
fn plan_removed(now: Standing, h: Header, look: Look, consumed: usize) -> Plan
    ensures { result ≡ removed_plan now.link now.pending h look consumed }
{
    let c = now.link.counts;
    let unlinked = count_plus(c.unlinked, 1);
    let counts = Counts {
        unlinked: unlinked,
        ..c
    };
    let seqnum = h.transfer.seqnum;
    let reply = unlink_reply(h, MINUS_ECONNRESET);
    plain_plan(
        attached_link(now.link, counts),
        Change::remove(now.pending, look.place),
        Event::Unlink(seqnum, MINUS_ECONNRESET, Some(look.ticket)),
        consumed,
        Some(reply),
    )
}

// An unlink of a seqnum that isn't pending.
fn plan_missed(now: Standing, h: Header, consumed: usize) -> Plan
    ensures { result ≡ missed_plan now.link now.pending h consumed }
{
    let seqnum = h.transfer.seqnum;
    let reply = unlink_reply(h, 0);
    plain_plan(
        attached_link(now.link, now.link.counts),
        Change::keep(now.pending),
        Event::Unlink(seqnum, 0, None),
        consumed,
        Some(reply),
    )
}

// An unlink: the URB that was looked up by its unlink_seqnum is removed.
pub fn plan_unlinked(now: Standing, h: Header, look: Option<Look>, consumed: usize) -> Plan
    ensures { result ≡ unlinked_plan now.link now.pending h look consumed }
{
    match look {
        Some(look) => plan_removed(now, h, look, consumed),
        None => plan_missed(now, h, consumed),
    }
}
