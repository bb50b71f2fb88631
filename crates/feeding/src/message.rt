// The plan for a piece of a session that doesn't wait, from values alone.
ghost use Rattle.std.specs.Prelude.{◌-◌, ◌≤◌, ◌≡◌, length};
ghost use Rattle.messages.specs.Messages.{body_len};
ghost use Rattle.feeding.specs.Planning.{further_on, submit_plan, body_plan, header_plan, attached_plan, message_plan};

use crate::ask::Asked;
use events::message::{plan_broken, plan_hungry, plan_submitted, plan_unlinked};
use events::plan::{Plan, plan_refused};
use ground::writing::write;
use limits::ATTACHED;
use links::link::{Progress, Standing};
use messages::message::{body_len, data_len};
use pending::look::Look;
use verdicts::verdict::{feed_refusal, header_fault};
use wire::codes::{CMD_SUBMIT, HEADER_LEN};

// More bytes of a body: those past the data are the descriptors', which the session keeps a copy of. (Most bytes are data, and the
// array isn't touched for them.)
fn further_on(p: Progress, bytes: &[u8]) -> Progress
    requires { length bytes.now ≤ body_len p.header - p.body }
    ensures { result ≡ further_on p bytes.now }
{
    let h = p.header;
    let size = data_len(h);
    let body = p.body;
    let len = bytes.len();
    let skip = size.saturating_sub(body);
    if len <= skip {
        return Progress {
            body: body + len,
            ..p
        };
    }
    let mut descriptors = p.descriptors;
    let at = body.saturating_sub(size);
    write(&mut descriptors[at..], &bytes[skip..len]);
    Progress {
        body: body + len,
        descriptors: descriptors,
        ..p
    }
}

// A submit's body, from a place of the piece on: it goes to the work buffer at its own position.
fn plan_body(now: Standing, p: Progress, at: usize, piece: &[u8], time: u32) -> Plan
    requires { at ≤ length piece.now }
    ensures { result ≡ body_plan now.link now.pending p at piece.now time }
{
    let h = p.header;
    let body = p.body;
    let len = piece.len();
    let need = body_len(h).saturating_sub(body);
    if len - at < need {
        let q = further_on(p, &piece[at..]);
        return Plan {
            body: body,
            from: at,
            to: len,
            ..plan_hungry(now, q, len)
        };
    }
    let end = at + need;
    let q = further_on(p, &piece[at..end]);
    let descriptors = q.descriptors;
    let judged = plan_submitted(now, h, descriptors, end, time);
    Plan {
        body: body,
        from: at,
        to: end,
        ..judged
    }
}

// A submit whose header passed: it ends there, or its body follows.
fn plan_submit(now: Standing, p: Progress, at: usize, piece: &[u8], time: u32) -> Plan
    requires { at ≤ length piece.now }
    ensures { result ≡ submit_plan now.link now.pending p at piece.now time }
{
    let h = p.header;
    if body_len(h) == 0 {
        let descriptors = p.descriptors;
        return plan_submitted(now, h, descriptors, at, time);
    }
    plan_body(now, p, at, piece, time)
}

// A header that was just read, by what was looked up for it.
fn plan_header(
    now: Standing,
    p: Progress,
    look: Option<Look>,
    at: usize,
    piece: &[u8],
    time: u32,
) -> Plan
    requires { at ≤ length piece.now }
    ensures { result ≡ header_plan now.link now.pending p look at piece.now time }
{
    let h = p.header;
    match header_fault(h, now.link.devid, look.is_some()) {
        Err(fault) => plan_broken(now, fault, at),
        Ok(()) => {
            if h.command == CMD_SUBMIT {
                return plan_submit(now, p, at, piece, time);
            }
            plan_unlinked(now, h, look, at)
        }
    }
}

// The bytes of a session that is attached.
fn plan_attached(now: Standing, asked: Asked, look: Option<Look>, piece: &[u8], time: u32) -> Plan
    requires { asked.consumed ≤ length piece.now }
    ensures { result ≡ attached_plan now.link now.pending asked look piece.now time }
{
    let p = asked.progress;
    if p.filled < HEADER_LEN {
        return plan_hungry(now, p, asked.consumed);
    }
    if asked.read {
        return plan_header(now, p, look, asked.consumed, piece, time);
    }
    plan_body(now, p, 0, piece, time)
}

// The plan for a piece, with buffers of these lengths, by what the piece asked, what was looked up and the time that was given. (It needs
// neither the table nor the list.)
pub fn plan_piece(
    now: Standing,
    asked: Asked,
    look: Option<Look>,
    piece: &[u8],
    work: usize,
    reply: usize,
    time: u32,
) -> Plan
    requires { asked.consumed ≤ length piece.now }
    ensures { result ≡ message_plan now.link now.pending asked look piece.now work reply time }
{
    let closed = now.phase() != ATTACHED;
    match feed_refusal(closed, work, reply) {
        Err(refusal) => plan_refused(now, u32::from(refusal)),
        Ok(()) => plan_attached(now, asked, look, piece, time),
    }
}
