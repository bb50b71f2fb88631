// A plan is carried out on the lent buffers.
ghost use Rattle.std.specs.Prelude.{◌+◌, ◌-◌, ◌≤◌, ◌≡◌, true, Some, is_some, length, take, drop};
ghost use Rattle.std.proofs.lemmas.List.Edits.{sets};
ghost use Rattle.ground.specs.Writing.{Wrote};
ghost use Rattle.messages.specs.Messages.{iso_count};
ghost use Rattle.replies.specs.Replies.{submit_reply};
ghost use Rattle.limits.specs.Limits;
ghost use Rattle.events.specs.Plans.{data_of, refusal_bytes, reply_bytes, request_bytes};
ghost use Rattle.settling.specs.Settling.{replied, told};

use events::plan::{Plan, Reply, RequestReply};
use exports::device::Table;
use ground::writing::write;
use importing::{import_reply, refuse_import};
use limits::MAX_PACKETS;
use listing::list_reply;
use lookup::device_at;
use messages::message::iso_count;
use messages::reply::{RetSubmit, write_ret_unlink};
use packets::packet::Packet;
use replies::write_submit_reply;
use results::{Results, refused_results};

// Bytes of the piece go to a place of the work buffer.
pub(crate) fn copy_body(piece: &[u8], from: usize, to: usize, at: usize, work: &mut [u8])
    requires { (to ≤ length piece.now) × (at + (to - from) ≤ length work.old) }
    ensures { work.new ≡ sets work.old at (take (to - from) (drop from piece.now)) }
{
    if from < to {
        write(&mut work[at..], &piece[from..to]);
    }
}

// Writes the reply to a submit that is refused: its descriptors are sent back.
fn write_refusal(ret: RetSubmit, iso: [Packet; MAX_PACKETS], out: &mut [u8]) -> usize
    ensures { Wrote (refusal_bytes iso ret) out.old out.new result }
{
    let count = iso_count(ret.packets);
    let each = refused_results(ret.status);
    write_submit_reply(out, ret, &iso, &each[..count])
}

// Writes the reply to a message at the front of the buffer, and answers how long it is.
fn write_said(reply: Reply, iso: [Packet; MAX_PACKETS], out: &mut [u8]) -> usize
    ensures wrote { Wrote (reply_bytes iso (Some reply)) out.old out.new result }
    ensures reply_len_bound { length (reply_bytes iso (Some reply)) ≤ Limits.REPLY-LEN }
{
    match reply {
        Reply::Submit(ret) => write_refusal(ret, iso, out),
        Reply::Unlink(ret) => write_ret_unlink(out, ret),
    }
}

// The same where there is one.
fn write_reply(reply: Option<Reply>, iso: [Packet; MAX_PACKETS], out: &mut [u8]) -> usize
    ensures wrote { Wrote (reply_bytes iso reply) out.old out.new result }
    ensures reply_len_bound { length (reply_bytes iso reply) ≤ Limits.REPLY-LEN }
{
    match reply {
        None => 0,
        Some(reply) => write_said(reply, iso, out),
    }
}

// Writes what a plan for a message says: bytes of the piece to the work buffer, and the reply, whose length it answers.
pub(crate) fn write_planned(plan: Plan, piece: &[u8], work: &mut [u8], reply: &mut [u8]) -> usize
    requires { (plan.to ≤ length piece.now) × (plan.body + (plan.to - plan.from) ≤ length work.old) }
    ensures work_after { work.new ≡ sets work.old plan.body (data_of plan piece.now) }
    ensures wrote { Wrote (reply_bytes plan.iso plan.reply) reply.old reply.new result }
    ensures reply_len_bound { length (reply_bytes plan.iso plan.reply) ≤ Limits.REPLY-LEN }
{
    let said = plan.reply;
    let iso = plan.iso;
    copy_body(piece, plan.from, plan.to, plan.body, work);
    write_reply(said, iso, reply)
}

// Writes the reply to an import of the device at a place of the table, or of none.
fn write_import(table: Table, place: Option<usize>, out: &mut [u8]) -> usize
    ensures wrote { Wrote (request_bytes table (Some (RequestReply.Import place))) out.old out.new result }
    ensures reply_len_bound { length (request_bytes table (Some (RequestReply.Import place))) ≤ Limits.REPLY-LEN }
{
    match place {
        None => refuse_import(out),
        Some(place) => import_reply(device_at(table, place), out),
    }
}

// Writes the reply to a request, if there is one, and answers how long it is.
pub(crate) fn write_request_reply(
    table: Table,
    reply: Option<RequestReply>,
    out: &mut [u8],
) -> usize
    ensures wrote { Wrote (request_bytes table reply) out.old out.new result }
    ensures reply_len_bound { length (request_bytes table reply) ≤ Limits.REPLY-LEN }
{
    match reply {
        None => 0,
        Some(RequestReply::List) => list_reply(table, out),
        Some(RequestReply::Import(place)) => write_import(table, place, out),
    }
}

// Writes the header of a URB that is returned, and a descriptor for each of its packets behind it.
fn write_return(
    ret: RetSubmit,
    iso: [Packet; MAX_PACKETS],
    results: Option<Results>,
    header: &mut [u8],
) -> usize
    ensures { Wrote (submit_reply ret iso (take (iso_count ret.packets) (told results))) header.old header.new result }
{
    match results {
        None => write_submit_reply(header, ret, &iso, &[]),
        Some(results) => {
            let list = results.list;
            write_submit_reply(header, ret, &iso, &list[..iso_count(ret.packets)])
        }
    }
}

// Writes it where there is such a header.
pub(crate) fn write_header(
    reply: Option<RetSubmit>,
    iso: [Packet; MAX_PACKETS],
    results: Option<Results>,
    header: &mut [u8],
)
    requires { is_some reply ≡ true → Limits.HEADER-ROOM ≤ length header.old }
    ensures { header.new ≡ replied reply iso (told results) header.old }
{
    if let Some(ret) = reply {
        write_return(ret, iso, results, header);
    }
}
