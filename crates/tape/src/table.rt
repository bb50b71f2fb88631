// What a tape is replayed on: the table of the session, and the device's data.
ghost use Rattle.std.specs.Prelude.{◌≡◌, ◌≤◌, length};
ghost use Rattle.ground.specs.Lists.{padded};
ghost use Rattle.tape.specs.Table.{tape_table, device_data};

use crate::layout::DATA_LEN;
use exports::device::{Device, Interface, Table};
use ground::writing::write;
use limits::{MAX_DEVICES, MAX_INTERFACES};

// A text with zeros behind it.
fn padded<const N: usize>(text: &[u8]) -> [u8; N]
    requires { length text.now ≤ N }
    ensures { result ≡ padded N text.now }
{
    let mut bytes = [0u8; N];
    write(&mut bytes, text);
    bytes
}

// The table of one device, which every place of the array holds: what stands past the count is free.
#[tactic(auto, unfolding(crate::specs::Table::tape_table))]
pub fn tape_table() -> Table
    ensures { result ≡ tape_table }
{
    let interface = Interface {
        bInterfaceClass: 0,
        bInterfaceSubClass: 0,
        bInterfaceProtocol: 0,
    };
    let device = Device {
        path: padded(b"/deck/1-1"),
        busid: padded(b"1-1"),
        busnum: 1,
        devnum: 15,
        speed: 0,
        idVendor: 0,
        idProduct: 0,
        bcdDevice: 0,
        bDeviceClass: 0,
        bDeviceSubClass: 0,
        bDeviceProtocol: 0,
        bConfigurationValue: 0,
        bNumConfigurations: 0,
        bNumInterfaces: 0,
        interfaces: [interface; MAX_INTERFACES],
    };
    Table {
        devices: [device; MAX_DEVICES],
        count: 1,
    }
}

// The device's data, the same for every completion.
pub fn device_data() -> [u8; DATA_LEN]
    ensures { result ≡ device_data }
{
    [0u8; DATA_LEN]
}
