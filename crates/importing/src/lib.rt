// The reply to an import request. What it is stands in specs/.
#![tactic(auto)]

ghost use Rattle.std.specs.Prelude.{◌≡◌, ◌+◌, length};
ghost use Rattle.wire.specs.Codes.{OP-LEN};
ghost use Rattle.records.specs.Records.{DEVICE-LEN};
ghost use Rattle.ground.specs.Writing.{Wrote};
ghost use Rattle.importing.specs.Imports.{import_reply, import_refusal};

use exports::device::Device;
use ground::writing::write;
use messages::reply::reply_head;
use records::record::{DEVICE_LEN, write_record};
use wire::codes::{OP_LEN, OP_REP_IMPORT};

// Writes the reply to an import of the device, if the buffer has room, and answers how many bytes it wrote.
#[tactic(auto, using(crate::proofs::Offsets::import_length, ground::proofs::Lists::unmapped))]
pub fn import_reply(d: Device, reply: &mut [u8]) -> usize
    ensures wrote { Wrote (import_reply d) reply.old reply.new result }
    ensures d_len { length (import_reply d) ≡ OP-LEN + DEVICE-LEN }
{
    if reply.len() < OP_LEN + DEVICE_LEN {
        return 0;
    }
    write(reply, &reply_head(OP_REP_IMPORT, 0));
    write_record(&mut reply[OP_LEN..], d);
    OP_LEN + DEVICE_LEN
}

// Writes the reply to an import that no device has the busid of, and answers how many bytes it wrote.
#[tactic(auto, unfolding(crate::specs::Imports::import_refusal))]
pub fn refuse_import(reply: &mut [u8]) -> usize
    ensures { Wrote import_refusal reply.old reply.new result }
{
    write(reply, &reply_head(OP_REP_IMPORT, 1))
}
