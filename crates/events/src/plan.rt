// A plan: what a feed will do, decided by value before anything is written.
ghost use Rattle.std.specs.Prelude.{◌≡◌};
ghost use Rattle.events.specs.Plans.{plain, refused_plan};

use crate::answer::Event;
use limits::MAX_PACKETS;
use links::link::{Link, Standing};
use messages::reply::{RetSubmit, RetUnlink};
use packets::packet::{Packet, no_packets};
use pending::change::Change;

// A reply to a message: a RET_SUBMIT, a RET_UNLINK.
#[derive(Clone, Copy)]
pub enum Reply {
    Submit(RetSubmit),
    Unlink(RetUnlink),
}

// The next link, the change of the pending list, the event and the bytes consumed, the reply, if there is one, and the packets that it
// sends back; the bytes of the piece from `from` up to `to` go to place `body` of the work buffer. What stands beside the event, setup
// bytes and packets, is that of the URB that the change sets.
#[derive(Clone, Copy)]
pub struct Plan {
    pub link: Link,
    pub change: Change,
    pub event: Event,
    pub consumed: usize,
    pub reply: Option<Reply>,
    pub iso: [Packet; MAX_PACKETS],
    pub body: usize,
    pub from: usize,
    pub to: usize,
}

// A reply to a request: the table's list; the import of the device at a place of the table, or of none.
#[derive(Clone, Copy)]
pub enum RequestReply {
    List,
    Import(Option<usize>),
}

// A plan that copies nothing and has no reply of its own, with the reply to a request.
#[derive(Clone, Copy)]
pub struct RequestPlan {
    pub plan: Plan,
    pub reply: Option<RequestReply>,
}

// A plan that copies nothing, whose reply has no packets.
pub(crate) fn plain_plan(
    link: Link,
    change: Change,
    event: Event,
    consumed: usize,
    reply: Option<Reply>,
) -> Plan
    ensures { result ≡ plain link change event consumed reply }
{
    Plan {
        link,
        change,
        event,
        consumed,
        reply,
        iso: no_packets(),
        body: 0,
        from: 0,
        to: 0,
    }
}

// The feed is refused, with that number, and nothing changes.
pub fn plan_refused(now: Standing, number: u32) -> Plan
    ensures { result ≡ refused_plan now.link now.pending number }
{
    let change = Change::keep(now.pending);
    plain_plan(now.link, change, Event::Refused(number), 0, None)
}
