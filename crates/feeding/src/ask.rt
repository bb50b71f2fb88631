// What a piece brings of a header, and what must be looked up for it.
ghost use Rattle.std.specs.Prelude.{◌+◌, ◌≤◌, ◌≡◌, length};
ghost use Rattle.wire.specs.Codes;
ghost use Rattle.feeding.specs.Asking.{grown, read_from, key_for, ask_of};

use ground::writing::write;
use limits::DESCRIPTORS_LEN;
use links::link::{Link, Progress};
use messages::message::{Header, read_header, unlink_seqnum};
use pending::look::Key;
use wire::codes::{CMD_SUBMIT, CMD_UNLINK, HEADER_LEN};

// The message in progress with the bytes of a piece that are its header's; how many they are; whether they made the header whole;
// and what must be looked up then, if anything. (`read` is no Option round the key: a header that asks nothing was read, too.)
#[derive(Clone, Copy)]
pub struct Asked {
    pub progress: Progress,
    pub consumed: usize,
    pub read: bool,
    pub key: Option<Key>,
}

// More bytes of the header of the message in progress.
pub(crate) fn grown_by(p: Progress, bytes: &[u8]) -> Progress
    requires { p.filled + length bytes.now ≤ Codes.HEADER-LEN }
    ensures { result ≡ grown p bytes.now }
{
    let mut head = p.head;
    let filled = p.filled;
    write(&mut head[filled..], bytes);
    Progress {
        head: head,
        filled: filled + bytes.len(),
        ..p
    }
}

// A whole header, read; the places that its bytes had are free again.
fn read_from(p: Progress) -> Progress
    ensures { result ≡ read_from p }
{
    let head = p.head;
    let header = read_header(head);
    Progress {
        head: [0u8; HEADER_LEN],
        filled: HEADER_LEN,
        header: header,
        body: 0,
        descriptors: [0u8; DESCRIPTORS_LEN],
    }
}

// A submit asks whether its own seqnum is pending, an unlink for the one that it names.
fn key_for(h: Header) -> Option<Key>
    ensures { result ≡ key_for h }
{
    match h.command {
        CMD_SUBMIT => Some(Key::Seqnum(h.transfer.seqnum)),
        CMD_UNLINK => Some(Key::Seqnum(unlink_seqnum(h))),
        _ => None,
    }
}

// A header that is read already asks nothing.
#[tactic(auto, unfolding(crate::specs::Asking::ask_of))]
pub fn ask(link: Link, piece: &[u8]) -> Asked
    ensures { result ≡ ask_of link piece.now }
{
    let p = link.progress;
    let len = piece.len();
    if HEADER_LEN <= p.filled {
        return Asked {
            progress: p,
            consumed: 0,
            read: false,
            key: None,
        };
    }
    let need = HEADER_LEN - p.filled;
    if len < need {
        let q = grown_by(p, piece);
        return Asked {
            progress: q,
            consumed: len,
            read: false,
            key: None,
        };
    }
    let q = grown_by(p, &piece[..need]);
    let done = read_from(q);
    Asked {
        progress: done,
        consumed: need,
        read: true,
        key: key_for(done.header),
    }
}
