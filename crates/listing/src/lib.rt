// The reply to a list request. What it is stands in specs/.
#![tactic(auto)]

ghost use Rattle.std.specs.Prelude.{◌≡◌, cond, Some, None, IfSome, ◌++◌, ◌+◌, ◌≤◌, length};
ghost use Rattle.ground.specs.Lists.{joined, every};
ghost use Rattle.ground.specs.Writing.{over, Wrote};
ghost use Rattle.limits.specs.Limits.{MAX-DEVICES, MAX-INTERFACES};
ghost use Rattle.records.specs.Records.{records_of};
ghost use Rattle.listing.specs.Lists.{LIST-HEAD-LEN, MAX-LISTED, MAX-LIST, listed_device, few, list_head, Listing, list_reply};

use exports::device::{Device, Table};
use ground::writing::write;
use limits::{MAX_DEVICES, MAX_INTERFACES};
use messages::reply::reply_head;
use records::interface::{INTERFACE_LEN, table_interfaces};
use records::record::{DEVICE_LEN, write_record};
use wire::codes::{OP_LEN, OP_REP_DEVLIST};
use wire::number::BigEndian;

// The bytes of a list reply before its first device.
const LIST_HEAD_LEN: usize = OP_LEN + 4;

// Writes a device as a list shows it at the front of a buffer that has room, and answers how many bytes it wrote. (The bound: its
// interfaces are in their array.)
#[tactic(auto, using(crate::proofs::Lists::listed_length, ground::proofs::Lists::unmapped))]
fn write_device(out: &mut [u8], d: Device, records: [[u8; INTERFACE_LEN]; MAX_INTERFACES]) -> usize
    requires { (d.bNumInterfaces ≤ MAX-INTERFACES) × (records ≡ records_of d) × (length (listed_device d) ≤ length out.old) }
    ensures value { result ≡ length (listed_device d) }
    ensures out_after { out.new ≡ over (listed_device d) out.old }
{
    let n = d.bNumInterfaces as usize;
    write_record(out, d);
    write(&mut out[DEVICE_LEN..], records[..n].as_flattened());
    DEVICE_LEN + n * INTERFACE_LEN
}

// The length of a device in a list, if it has no more interfaces than there is room for.
#[tactic(auto, using(crate::proofs::Lists::listed_length, ground::proofs::Lists::unmapped))]
fn listed_len(d: Device) -> Option<usize>
    ensures value { result ≡ cond (few d) (Some (length (listed_device d))) None }
    ensures upper_bound { IfSome result (λ len. len ≤ MAX-LISTED) }
{
    let n = d.bNumInterfaces as usize;
    if MAX_INTERFACES < n {
        return None;
    }
    Some(DEVICE_LEN + n * INTERFACE_LEN)
}

// The length of the devices' list reply, if none of them has too many interfaces. (The bound keeps the sum small.)
fn list_len(devices: &[Device]) -> Option<usize>
    requires { length devices.now ≤ MAX-DEVICES }
    ensures value { result ≡ cond (every few devices.now) (Some (LIST-HEAD-LEN + length (joined listed_device devices.now))) None }
    ensures upper_bound { IfSome result (λ len. len ≤ MAX-LIST) }
{
    let mut len = LIST_HEAD_LEN;
    for d in devices {
        len += listed_len(*d)?;
    }
    Some(len)
}

// What a list reply starts with: the head, and how many devices follow. (The bound is for the cast.)
fn list_head(n: usize) -> [u8; LIST_HEAD_LEN]
    requires { n ≤ MAX-DEVICES }
    ensures { result ≡ list_head n }
{
    let mut head = [0; LIST_HEAD_LEN];
    head[..OP_LEN].copy_from_slice(&reply_head(OP_REP_DEVLIST, 0));
    head[OP_LEN..].copy_from_slice(&(n as u32).to_bytes());
    head
}

// Writes the devices' list reply at the front of a reply that has room, each device into the part of the reply that starts at
// the running offset, and answers how many bytes it wrote.
fn write_list(
    reply: &mut [u8],
    devices: &[Device],
    interfaces: [[[u8; INTERFACE_LEN]; MAX_INTERFACES]; MAX_DEVICES],
) -> usize
    requires { Listing devices.now interfaces reply.old }
    ensures value { result ≡ length (list_head (length devices.now) ++ joined listed_device devices.now) }
    ensures reply_after { reply.new ≡ over (list_head (length devices.now) ++ joined listed_device devices.now) reply.old }
{
    write(reply, &list_head(devices.len()));
    let mut at = LIST_HEAD_LEN;
    for (i, d) in devices.iter().enumerate() {
        at += write_device(&mut reply[at..], *d, interfaces[i]);
    }
    at
}

// Writes the table's list reply, if it has one and the buffer has room, and answers how many bytes it wrote.
#[tactic(auto, using(crate::proofs::Lists::told))]
pub fn list_reply(table: Table, reply: &mut [u8]) -> usize
    ensures wrote { Wrote (list_reply table) reply.old reply.new result }
    ensures table_len_bound { length (list_reply table) ≤ MAX-LIST }
{
    if MAX_DEVICES < table.count {
        return 0;
    }
    let devices = table.listed();
    match list_len(devices) {
        Some(len) if len <= reply.len() => {
            write_list(reply, devices, table_interfaces(table.devices))
        }
        _ => 0,
    }
}
