// The plan for a piece of a session that waits. Only this needs the table.
ghost use Rattle.std.specs.Prelude.{◌+◌, ◌≤◌, ◌<◌, ◌≡◌, length};
ghost use Rattle.wire.specs.Codes;
ghost use Rattle.feeding.specs.Planning.{lookup_plan, busid_plan, head_plan, waiting_plan, request_plan};

use crate::ask::grown_by;
use events::message::{plan_broken, plan_hungry};
use events::plan::{RequestPlan, plan_refused};
use events::request::{plan_import, plan_list, plan_silent, plan_unknown};
use exports::device::Table;
use limits::WAITING;
use links::link::{Progress, Standing};
use lookup::{devid_at, find};
use messages::request::{read_busid, read_request};
use verdicts::verdict::{feed_refusal, request_fault};
use wire::codes::{BUSID_LEN, HEADER_LEN, OP_LEN, OP_REQ_DEVLIST};

// The last byte of an import is in: the device of the table that has the busid is attached, if there is one.
fn plan_lookup(table: Table, now: Standing, head: [u8; HEADER_LEN], consumed: usize) -> RequestPlan
    ensures { result ≡ lookup_plan table now.link now.pending head consumed }
{
    match find(table, read_busid(head)) {
        Some(place) => plan_import(now, place, devid_at(table, place), consumed),
        None => plan_unknown(now, consumed),
    }
}

// An import's busid, from a place of the piece on.
fn plan_busid(table: Table, now: Standing, p: Progress, piece: &[u8], at: usize) -> RequestPlan
    requires { (p.filled < Codes.OP-LEN + Codes.BUSID-LEN) × (at ≤ length piece.now) }
    ensures { result ≡ busid_plan table now.link now.pending p piece.now at }
{
    let need = OP_LEN + BUSID_LEN - p.filled;
    let len = piece.len();
    if len - at < need {
        let q = grown_by(p, &piece[at..]);
        return plan_silent(plan_hungry(now, q, len));
    }
    let end = at + need;
    let q = grown_by(p, &piece[at..end]);
    let head = q.head;
    plan_lookup(table, now, head, end)
}

// A request's first 8 bytes.
fn plan_head(table: Table, now: Standing, piece: &[u8]) -> RequestPlan
    requires { now.link.progress.filled < Codes.OP-LEN }
    ensures { result ≡ head_plan table now.link now.pending piece.now }
{
    let p = now.link.progress;
    let need = OP_LEN - p.filled;
    let len = piece.len();
    if len < need {
        let q = grown_by(p, piece);
        return plan_silent(plan_hungry(now, q, len));
    }
    let q = grown_by(p, &piece[..need]);
    let head = q.head;
    let request = read_request(head);
    match request_fault(request) {
        Err(fault) => plan_silent(plan_broken(now, fault, need)),
        Ok(()) => {
            if request.code == OP_REQ_DEVLIST {
                return plan_list(now, need);
            }
            plan_busid(table, now, q, piece, need)
        }
    }
}

// The bytes of a session that waits.
fn plan_waiting(table: Table, now: Standing, piece: &[u8]) -> RequestPlan
    requires { now.link.progress.filled < Codes.OP-LEN + Codes.BUSID-LEN }
    ensures { result ≡ waiting_plan table now.link now.pending piece.now }
{
    let p = now.link.progress;
    if p.filled < OP_LEN {
        return plan_head(table, now, piece);
    }
    plan_busid(table, now, p, piece, 0)
}

// The plan for a piece, with buffers of these lengths.
pub fn plan_request(
    table: Table,
    now: Standing,
    piece: &[u8],
    work: usize,
    reply: usize,
) -> RequestPlan
    ensures { result ≡ request_plan table now.link now.pending piece.now work reply }
{
    let closed = now.phase() != WAITING;
    match feed_refusal(closed, work, reply) {
        Err(refusal) => plan_silent(plan_refused(now, u32::from(refusal))),
        Ok(()) => plan_waiting(table, now, piece),
    }
}
