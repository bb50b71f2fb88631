// What the acts of a session answer: a feed an event, a completion what is returned, an opening, a closing and an inquiry nothing; or
// they are refused. Numbers go inside an event, arrays beside it. What each case stands for is `event_of` and its like in
// specs/Answers.antt.
use limits::MAX_PACKETS;
use messages::message::Transfer;
use packets::packet::Packet;
use verdicts::verdict::Fault;
use wire::codes::SETUP_LEN;

// Hungry is the rules' word for a feed that ends within a message. An import has its status, the 0 or 1 of its reply on the wire; an
// accepted submit its ticket, its arrival and its transfer (the setup bytes and the packets stand beside); an answer to a refused submit
// its seqnum and status; an unlink its own seqnum, its status and the ticket removed, if it did. A break is the rules' word for a fault in
// the stream, which ends the session. A refusal has its number.
#[derive(Clone, Copy)]
pub enum Event {
    Hungry,
    List,
    Import(u32),
    Submit(u64, u32, Transfer),
    Answer(u32, u32),
    Unlink(u32, u32, Option<u64>),
    Break(Fault),
    Refused(u32),
}

// A feed's answer: the event, the bytes consumed of the piece, the length of the reply; an accepted submit's setup bytes and packets.
#[derive(Clone, Copy)]
pub struct Answer {
    pub event: Event,
    pub consumed: usize,
    pub length: usize,
    pub setup: [u8; SETUP_LEN],
    pub iso: [Packet; MAX_PACKETS],
}

// What a URB is returned with: the length of the reply on the wire, and the status sent.
#[derive(Clone, Copy)]
pub struct Returned {
    pub length: u64,
    pub status: u32,
}
