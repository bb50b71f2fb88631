// The rules of one device and of two, which the devices of an export table keep.
ghost use Rattle.std.specs.Prelude.{◌≡◌};
ghost use Rattle.exports.specs.Rules.{all_zero, text, good_device, same_numbers, clash};

use crate::device::Device;
use limits::{MAX_BUSNUM, MAX_DEVNUM, MAX_INTERFACES};

fn all_zero(bytes: &[u8]) -> bool
    ensures { result ≡ all_zero bytes.now }
{
    bytes.iter().all(|b| *b == 0)
}

// The rule for a path and for a busid.
#[tactic(auto, unfolding(crate::specs::Rules::text))]
fn is_text(bytes: &[u8]) -> bool
    ensures { result ≡ text bytes.now }
{
    match bytes.iter().position(|b| *b == 0) {
        Some(end) => 0 < end && all_zero(&bytes[end..]),
        None => false,
    }
}

// Whether a device keeps every rule for one.
#[tactic(auto, unfolding(crate::specs::Rules::good_device))]
pub fn good_device(d: Device) -> bool
    ensures { result ≡ good_device d }
{
    is_text(&d.path)
        && is_text(&d.busid)
        && (1..=MAX_BUSNUM).contains(&d.busnum)
        && (1..=MAX_DEVNUM).contains(&d.devnum)
        && d.bNumInterfaces as usize <= MAX_INTERFACES
}

fn same_numbers(a: Device, b: Device) -> bool
    ensures { result ≡ same_numbers a b }
{
    a.busnum == b.busnum && a.devnum == b.devnum
}

// Whether two devices have one busid, or one busnum and devnum.
pub fn clash(a: Device, b: Device) -> bool
    ensures { result ≡ clash a b }
{
    a.busid == b.busid || same_numbers(a, b)
}
