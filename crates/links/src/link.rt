// The link to the client: its phase, its device, the message in progress, the counts.
ghost use Rattle.std.specs.Prelude.{◌≡◌};
ghost use Rattle.links.specs.Links.{no_progress, resting, plus, ended_link, fresh_link};

use limits::{CLOSED, DESCRIPTORS_LEN, LAST_TICKET};
use messages::message::{Header, blank_header};
use pending::counts::Counts;
use wire::codes::HEADER_LEN;

// The message in progress: the first filled bytes of its header; or, where they are all there, the header as read, how many bytes of
// its body came, and those of them that are descriptors' (its own copy: the work buffer is the caller's). What isn't in use is 0. (Arrays and counts: C
// holds it in a session.)
#[repr(C)]
#[derive(Clone, Copy)]
pub struct Progress {
    pub head: [u8; HEADER_LEN],
    pub filled: usize,
    pub header: Header,
    pub body: usize,
    pub descriptors: [u8; DESCRIPTORS_LEN],
}

// The link to the client: WAITING, ATTACHED or CLOSED; the devid of the device that is attached (64 bits, so that none
// overflows it); the message in progress; the counts. (The phase is a number: C holds the session, and any byte may stand there.)
#[repr(C)]
#[derive(Clone, Copy)]
pub struct Link {
    pub phase: u8,
    pub devid: u64,
    pub progress: Progress,
    pub counts: Counts,
}

// What a plan starts from: the link, and how many URBs are pending.
#[derive(Clone, Copy)]
pub struct Standing {
    pub link: Link,
    pub pending: usize,
}

fn no_progress() -> Progress
    ensures { result ≡ no_progress }
{
    let header = blank_header();
    Progress {
        head: [0u8; HEADER_LEN],
        filled: 0,
        header: header,
        body: 0,
        descriptors: [0u8; DESCRIPTORS_LEN],
    }
}

// A link with no message in progress.
pub fn resting_link(phase: u8, devid: u64, counts: Counts) -> Link
    ensures { result ≡ resting phase devid counts }
{
    let progress = no_progress();
    Link {
        phase: phase,
        devid: devid,
        progress: progress,
        counts: counts,
    }
}

// The link of a session that nothing was said to yet.
pub fn fresh_link(phase: u8) -> Link
    ensures { result ≡ fresh_link phase }
{
    resting_link(phase, 0, Counts::default())
}

// A count with so many more; one that would pass the last ticket stays as it is. (Of counts that fit together none is above the
// tickets given, so the sum is always there.)
pub fn count_plus(count: u64, more: u64) -> u64
    ensures { result ≡ plus count more }
{
    if LAST_TICKET - count < more {
        return count;
    }
    count + more
}

impl Standing {
    // The link of a session that ends there: all that is pending is dropped.
    pub fn ended(self) -> Link
        ensures { result ≡ ended_link self.link self.pending }
    {
        let link = self.link;
        let c = link.counts;
        let dropped = count_plus(c.dropped, self.pending as u64);
        resting_link(CLOSED, link.devid, Counts { dropped, ..c })
    }
}
