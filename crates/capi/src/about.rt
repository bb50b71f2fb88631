// The limits that this archive was built with, and the version of its face.
ghost use Rattle.std.specs.Prelude.{◌≡◌};
ghost use Rattle.capi.specs.Flat.{FACE-VERSION, flat_limits};

use limits::{
    HEADER_ROOM, MAX_DEVICES, MAX_INTERFACES, MAX_PACKETS, MAX_PENDING, MAX_TRANSFER, REPLY_LEN,
    WORK_LEN,
};

// Rises with each change of a function, a struct or an answer.
pub const FACE_VERSION: u32 = 6;

#[repr(C)]
#[derive(Clone, Copy)]
pub struct FlatLimits {
    pub devices: usize,
    pub interfaces: usize,
    pub pending: usize,
    pub transfer: usize,
    pub packets: usize,
    pub work: usize,
    pub reply: usize,
    pub header: usize,
}

#[unsafe(no_mangle)]
pub extern "C" fn rimemaple_limits() -> FlatLimits
    ensures { result ≡ flat_limits }
{
    FlatLimits {
        devices: MAX_DEVICES,
        interfaces: MAX_INTERFACES,
        pending: MAX_PENDING,
        transfer: MAX_TRANSFER as usize,
        packets: MAX_PACKETS,
        work: WORK_LEN,
        reply: REPLY_LEN,
        header: HEADER_ROOM,
    }
}

#[unsafe(no_mangle)]
pub extern "C" fn rimemaple_version() -> u32
    ensures { result ≡ FACE-VERSION }
{
    FACE_VERSION
}
