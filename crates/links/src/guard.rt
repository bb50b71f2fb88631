// When the parts of a link fit together.
ghost use Rattle.std.specs.Prelude.{◌≡◌};
ghost use Rattle.links.specs.Links.{counts_fit, attached_fits, progress_fits, phase_of};

use crate::link::{Progress, Standing};
use limits::{ATTACHED, CLOSED, MAX_PENDING, MAX_TRANSFER, WAITING};
use messages::message::{body_len, data_len};
use pending::counts::Counts;
use wire::codes::{BUSID_LEN, HEADER_LEN, OP_LEN};

// Every URB that was accepted is pending or has its end. (Taken off one by one, so that no sum overflows.)
fn counts_fit(c: Counts, pending: usize) -> bool
    ensures { result ≡ counts_fit c pending }
{
    if MAX_PENDING < pending {
        return false;
    }
    let n = pending as u64;
    if c.accepted < n {
        return false;
    }
    let ended = c.accepted - n;
    if ended < c.returned {
        return false;
    }
    let others = ended - c.returned;
    if others < c.unlinked {
        return false;
    }
    others - c.unlinked == c.dropped
}

// A message goes on: a part of its header is in, or the header and a part of its body.
fn attached_fits(p: Progress) -> bool
    ensures { result ≡ attached_fits p }
{
    if p.filled < HEADER_LEN {
        return true;
    }
    if p.filled != HEADER_LEN {
        return false;
    }
    let h = p.header;
    if (MAX_TRANSFER as usize) < data_len(h) {
        return false;
    }
    p.body < body_len(h)
}

// A request goes on while less than an import is in.
fn progress_fits(phase: u8, p: Progress) -> bool
    ensures { result ≡ progress_fits phase p }
{
    if phase == WAITING {
        return p.filled < OP_LEN + BUSID_LEN;
    }
    if phase == ATTACHED {
        return attached_fits(p);
    }
    false
}

impl Standing {
    // The phase, a number as the link has it; a standing whose parts don't fit together, as no act leaves one, is taken for closed.
    pub fn phase(self) -> u8
        ensures { result ≡ phase_of self.link self.pending }
    {
        let link = self.link;
        if !counts_fit(link.counts, self.pending) {
            return CLOSED;
        }
        if !progress_fits(link.phase, link.progress) {
            return CLOSED;
        }
        link.phase
    }
}
