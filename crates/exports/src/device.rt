// What the box exports: a table of devices, each with its interfaces.
ghost use Rattle.std.specs.Prelude.{◌≡◌};
ghost use Rattle.exports.specs.Devices.{devices_of};

use ground::part::front;
use limits::{MAX_DEVICES, MAX_INTERFACES, PATH_LEN};
use wire::codes::BUSID_LEN;

#[repr(C)]
#[derive(Clone, Copy)]
pub struct Interface {
    pub bInterfaceClass: u8,
    pub bInterfaceSubClass: u8,
    pub bInterfaceProtocol: u8,
}

// A device under its USB descriptors' names. Of its interfaces the first bNumInterfaces count. (An array and a count: C hands it in.)
#[repr(C)]
#[derive(Clone, Copy)]
pub struct Device {
    pub path: [u8; PATH_LEN],
    pub busid: [u8; BUSID_LEN],
    pub busnum: u32,
    pub devnum: u32,
    pub speed: u32,
    pub idVendor: u16,
    pub idProduct: u16,
    pub bcdDevice: u16,
    pub bDeviceClass: u8,
    pub bDeviceSubClass: u8,
    pub bDeviceProtocol: u8,
    pub bConfigurationValue: u8,
    pub bNumConfigurations: u8,
    pub bNumInterfaces: u8,
    pub interfaces: [Interface; MAX_INTERFACES],
}

// The export table: its first count devices. A count above MAX_DEVICES breaks the table's rules. (An array and a count: C hands it in.)
#[repr(C)]
#[derive(Clone, Copy)]
pub struct Table {
    pub devices: [Device; MAX_DEVICES],
    pub count: usize,
}

impl Table {
    // The devices that count; all that there are, where the count is above MAX_DEVICES.
    pub fn listed(&self) -> &[Device]
        ensures { result.now ≡ devices_of self.now }
    {
        front(&self.devices, self.count)
    }
}
