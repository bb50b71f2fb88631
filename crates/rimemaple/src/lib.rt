// The front door: all that a caller of the engine needs, by one crate's name. It is a list, and so has no specs of its own: what each
// promises stands where it is declared.
#![tactic(auto)]

// A session, and what its acts hand back and answer.
pub use events::answer::{Answer, Event, Returned};
pub use pending::counts::Numbers;
pub use session::answer::{Closed, Completed, Fed, Inquired, Opened};
pub use session::state::Session;

// The export table that a session is opened with.
pub use exports::device::{Device, Interface, Table};
pub use limits::{MAX_DEVICES, MAX_INTERFACES, PATH_LEN};
pub use wire::codes::BUSID_LEN;

// A transfer that the device side starts, what it says of an isochronous one's packets, and those that it drops.
pub use limits::{MAX_PACKETS, MAX_PENDING, MAX_TRANSFER};
pub use messages::message::Transfer;
pub use packets::packet::Packet;
pub use pending::list::Tickets;
pub use pending::urb::Urb;
pub use results::{PacketResult, Results};
pub use wire::codes::{DIR_IN, DIR_OUT, SETUP_LEN};

// The lent buffers, and the part of a reply that is sent next.
pub use limits::{HEADER_ROOM, REPLY_LEN, WORK_LEN};
pub use transmit::part;
pub use wire::codes::{DESCRIPTOR_LEN, HEADER_LEN, OP_LEN};

// Refusals, the faults that break a session, the numbers of both, and statuses.
pub use limits::{
    BAD_CODE, BAD_COMMAND, BAD_DEVID, BAD_DIRECTION, BAD_LENGTH, BAD_PACKETS, BAD_TABLE,
    BAD_VERSION, DIRTY_PADDING, MISFIT, NOT_PENDING, SEQNUM_PENDING, SESSION_CLOSED, SHORT_BUFFER,
    SHORT_DATA, STATUS_ABOVE_0,
};
pub use verdicts::verdict::{Fault, FaultKind, Refusal};
pub use wire::status::{MINUS_ECONNRESET, MINUS_EINVAL, MINUS_ENODEV, MINUS_ENOMEM};
