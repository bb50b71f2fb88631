// The plan of a completion.
ghost use Rattle.std.specs.Prelude.{◌≡◌, length};
ghost use Rattle.messages.specs.Messages.{iso_count};
ghost use Rattle.results.specs.Results.{errors};
ghost use Rattle.model.specs.Acts.{results_in, kind_fits};
ghost use Rattle.settling.specs.Settling.{kind_of, named_look, judged_by, return_for, returned_link, refusal_plan, return_plan, completion_plan};

use events::answer::Returned;
use limits::{CLOSED, MAX_PACKETS};
use links::link::{Link, Standing, count_plus};
use messages::message::{Transfer, iso_count};
use messages::reply::RetSubmit;
use packets::packet::{Packet, no_packets};
use pending::change::Change;
use pending::counts::Counts;
use pending::look::Look;
use results::{Results, error_count, results_fit};
use transmit::wire_length;
use verdicts::verdict::{Completing, Named, Refusal, completion_refusal, status_sent};

// What the device side says of a ticket: a status and an actual length; and of an isochronous URB a result for each packet, too.
#[derive(Clone, Copy)]
pub struct Given {
    pub status: u32,
    pub actual: u32,
    pub results: Option<Results>,
}

// What a completion will do: the next link and the change of the list; the answer; and if it is good, the header of the reply and the
// packets of its descriptors.
#[derive(Clone, Copy)]
pub struct CompletionPlan {
    pub link: Link,
    pub change: Change,
    pub answer: Result<Returned, Refusal>,
    pub reply: Option<RetSubmit>,
    pub iso: [Packet; MAX_PACKETS],
}

// The act is the one for a URB with these packets, and the results fit them.
fn kind_fits(given: Given, iso: &[Packet]) -> bool
    ensures { result ≡ kind_fits (kind_of given) (length iso.now) iso.now given.actual }
{
    match given.results {
        None => iso.is_empty(),
        Some(results) => !iso.is_empty() && results_fit(iso, results, given.actual),
    }
}

// How many packets have a status that isn't 0.
fn errors_given(given: Given) -> u32
    ensures { result ≡ errors (results_in (kind_of given)) }
{
    match given.results {
        None => 0,
        Some(results) => error_count(results),
    }
}

// Whether the completion fits a URB with so many packets, which are the first of these.
fn packets_fit(given: Given, number: u32, iso: [Packet; MAX_PACKETS]) -> bool
    ensures { result ≡ kind_fits (kind_of given) (iso_count number) iso given.actual }
{
    kind_fits(given, &iso[..iso_count(number)])
}

// What is asked of the URB that was found, if one was.
fn named(look: Option<Look>, given: Given) -> Option<Named>
    ensures { result ≡ named_look given look }
{
    match look {
        None => None,
        Some(look) => {
            let u = look.transfer;
            let iso = look.iso;
            Some(Named {
                length: u.length,
                direction: u.direction,
                fits: packets_fit(given, u.packets, iso),
            })
        }
    }
}

// What a completion is judged by; payload and header are lengths.
fn judged_by(
    phase: u8,
    look: Option<Look>,
    given: Given,
    payload: usize,
    header: usize,
) -> Completing
    ensures { result ≡ judged_by phase look given payload header }
{
    Completing {
        closed: phase == CLOSED,
        header: header,
        status: given.status,
        actual: given.actual,
        payload: payload,
        urb: named(look, given),
    }
}

// The header of the reply to a URB, with the status sent.
fn reply_to(u: Transfer, given: Given) -> RetSubmit
    ensures { result ≡ return_for u given }
{
    let sent = status_sent(u, given.status, given.actual);
    RetSubmit {
        seqnum: u.seqnum,
        status: sent,
        actual: given.actual,
        start: u.start,
        packets: u.packets,
        errors: errors_given(given),
    }
}

// One URB more was returned; the message in progress is as it was.
fn returned_link(old: Link) -> Link
    ensures { result ≡ returned_link old }
{
    let c = old.counts;
    let returned = count_plus(c.returned, 1);
    let counts = Counts { returned, ..c };
    Link { counts, ..old }
}

// The completion is refused, and nothing changes.
fn plan_refusal(now: Standing, refusal: Refusal) -> CompletionPlan
    ensures { result ≡ refusal_plan now.link now.pending refusal }
{
    let link = now.link;
    let iso = no_packets();
    CompletionPlan {
        link: link,
        change: Change::keep(now.pending),
        answer: Err(refusal),
        reply: None,
        iso: iso,
    }
}

// The URB is returned.
fn plan_return(now: Standing, look: Look, given: Given) -> CompletionPlan
    ensures { result ≡ return_plan now.link now.pending look given }
{
    let u = look.transfer;
    let iso = look.iso;
    let ret = reply_to(u, given);
    let returned = Returned {
        length: wire_length(u.direction, given.actual, iso_count(u.packets) as u32),
        status: ret.status,
    };
    CompletionPlan {
        link: returned_link(now.link),
        change: Change::remove(now.pending, look.place),
        answer: Ok(returned),
        reply: Some(ret),
        iso: iso,
    }
}

// The plan of a completion of what was looked up under its ticket, with device's data and a header buffer of these lengths. (What wasn't
// found is refused by its judgement; the last branch is never taken.)
pub fn plan_completion(
    now: Standing,
    look: Option<Look>,
    given: Given,
    payload: usize,
    header: usize,
) -> CompletionPlan
    ensures { result ≡ completion_plan now.link now.pending look given payload header }
{
    let c = judged_by(now.phase(), look, given, payload, header);
    match completion_refusal(c) {
        Err(refusal) => plan_refusal(now, refusal),
        Ok(()) => match look {
            Some(look) => plan_return(now, look, given),
            None => plan_refusal(now, Refusal::NotPending),
        },
    }
}
