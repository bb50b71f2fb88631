// What each event of a request does: to the link, and to the reply. So many bytes of the piece are consumed then.
ghost use Rattle.std.specs.Prelude.{◌≡◌};
ghost use Rattle.events.specs.Plans.{rest_plan, silent_plan, list_plan, unknown_plan, import_plan};

use crate::answer::Event;
use crate::plan::{Plan, RequestPlan, RequestReply, plain_plan};
use limits::{ATTACHED, CLOSED};
use links::link::{Standing, resting_link};
use pending::change::Change;

// A phase begins, with no message in progress and nothing dropped.
fn plan_rest(now: Standing, phase: u8, devid: u64, event: Event, consumed: usize) -> Plan
    ensures { result ≡ rest_plan now.link now.pending phase devid event consumed }
{
    let link = resting_link(phase, devid, now.link.counts);
    plain_plan(link, Change::keep(now.pending), event, consumed, None)
}

// A plan with no reply.
pub fn plan_silent(plan: Plan) -> RequestPlan
    ensures { result ≡ silent_plan plan }
{
    RequestPlan { plan, reply: None }
}

// A list request: the reply lists the table, and the session is closed.
pub fn plan_list(now: Standing, consumed: usize) -> RequestPlan
    ensures { result ≡ list_plan now.link now.pending consumed }
{
    RequestPlan {
        plan: plan_rest(now, CLOSED, now.link.devid, Event::List, consumed),
        reply: Some(RequestReply::List),
    }
}

// An import that no device has the busid of: the session is closed.
pub fn plan_unknown(now: Standing, consumed: usize) -> RequestPlan
    ensures { result ≡ unknown_plan now.link now.pending consumed }
{
    RequestPlan {
        plan: plan_rest(now, CLOSED, now.link.devid, Event::Import(1), consumed),
        reply: Some(RequestReply::Import(None)),
    }
}

// An import of the device at a place of the table: the session is attached to it.
pub fn plan_import(now: Standing, place: usize, devid: u64, consumed: usize) -> RequestPlan
    ensures { result ≡ import_plan now.link now.pending place devid consumed }
{
    RequestPlan {
        plan: plan_rest(now, ATTACHED, devid, Event::Import(0), consumed),
        reply: Some(RequestReply::Import(Some(place))),
    }
}
