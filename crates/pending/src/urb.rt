// A pending URB: what a submit said, under its ticket, and when it came.
ghost use Rattle.std.specs.Prelude.{◌≡◌};
ghost use Rattle.pending.specs.Pending.{blank};

use limits::MAX_PACKETS;
use messages::message::Transfer;
use packets::packet::{Packet, no_packets};
use wire::codes::SETUP_LEN;

// The ticket is the rules' word (PROTOCOL.md, 2) for the number, counted from 1, by which the device side knows a URB. The arrival is the
// time, in milliseconds that wrap, given with the feed that accepted it. The packets are those of an isochronous submit, as they came, and
// blank ones behind them.
#[repr(C)]
#[derive(Clone, Copy)]
pub struct Urb {
    pub ticket: u64,
    pub transfer: Transfer,
    pub setup: [u8; SETUP_LEN],
    pub arrival: u32,
    pub iso: [Packet; MAX_PACKETS],
}

impl Urb {
    // What stands in a free place. (A literal: that a derived default has these arrays is not found.)
    pub fn blank() -> Urb
        ensures { result ≡ blank }
    {
        Urb {
            ticket: 0,
            transfer: Transfer::default(),
            setup: [0u8; SETUP_LEN],
            arrival: 0,
            iso: no_packets(),
        }
    }
}
