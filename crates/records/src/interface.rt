// The interfaces of devices, as the bytes that a list shows of them.
ghost use Rattle.std.specs.Prelude.{◌≡◌, map};
ghost use Rattle.records.specs.Records.{interface_record, records_of};

use exports::device::{Device, Interface};
use limits::{MAX_DEVICES, MAX_INTERFACES};

// The bytes of an interface.
pub const INTERFACE_LEN: usize = 4;

// An interface as the bytes that a list shows of it.
fn interface_record(f: Interface) -> [u8; INTERFACE_LEN]
    ensures { result ≡ interface_record f }
{
    [
        f.bInterfaceClass,
        f.bInterfaceSubClass,
        f.bInterfaceProtocol,
        0,
    ]
}

// Each interface of a device.
fn interface_records(d: Device) -> [[u8; INTERFACE_LEN]; MAX_INTERFACES]
    ensures { result ≡ records_of d }
{
    d.interfaces.map(interface_record)
}

// The interfaces of each device of a table.
pub fn table_interfaces(
    devices: [Device; MAX_DEVICES],
) -> [[[u8; INTERFACE_LEN]; MAX_INTERFACES]; MAX_DEVICES]
    ensures { result ≡ map records_of devices }
{
    devices.map(interface_records)
}
