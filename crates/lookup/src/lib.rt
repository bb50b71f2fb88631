// The look-up of a device by its busid. What it is stands in specs/.
#![tactic(auto)]

ghost use Rattle.std.specs.Prelude.{◌<◌, ◌≡◌};
ghost use Rattle.limits.specs.Limits.{MAX-DEVICES};
ghost use Rattle.lookup.specs.Lookup.{find_busid, find_in, place_in, device_in, devid_in};

use exports::device::{Device, Table};
use limits::MAX_DEVICES;
use wire::codes::BUSID_LEN;

// A device's busid. (A call's result is known to have its type's length, a field of an element of a slice isn't.)
fn busid_of(d: &Device) -> [u8; BUSID_LEN]
    ensures { result ≡ d.now.busid }
{
    d.busid
}

// The first of the devices that has the busid. (docs/DECISIONS.md names this form: a loop over the bytes, a `continue`
// with a label, and a `break` with the index.)
fn find_busid(devices: &[Device], busid: [u8; BUSID_LEN]) -> Option<usize>
    ensures { result ≡ find_busid busid devices.now }
{
    let mut i = 0;
    let found = 'devices: loop {
        if devices.len() <= i {
            return None;
        }
        let id = busid_of(&devices[i]);
        for j in 0..BUSID_LEN {
            if id[j] != busid[j] {
                i += 1;
                continue 'devices;
            }
        }
        break i;
    };
    Some(found)
}

// The first device of the table that has the busid, if one has it. A count above MAX_DEVICES finds among all that there are.
pub fn find(table: Table, busid: [u8; BUSID_LEN]) -> Option<usize>
    ensures { result ≡ find_in table busid }
{
    find_busid(table.listed(), busid)
}

// A place of the array of devices; past its end, the first.
fn place_in(at: usize) -> usize
    ensures { (result ≡ place_in at) × (result < MAX-DEVICES) }
{
    if at < MAX_DEVICES { at } else { 0 }
}

// The device at a place of the table.
pub fn device_at(table: Table, at: usize) -> Device
    ensures { result ≡ device_in table at }
{
    table.devices[place_in(at)]
}

// Its devid: busnum x 65,536 + devnum.
pub fn devid_at(table: Table, at: usize) -> u64
    ensures { result ≡ devid_in table at }
{
    let d = device_at(table, at);
    u64::from(d.busnum) * 65536 + u64::from(d.devnum)
}
