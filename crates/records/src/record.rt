// The record of a device, which a list and an import reply share.
ghost use Rattle.std.specs.Prelude.{◌≡◌};
ghost use Rattle.wire.specs.Fields.{pack};
ghost use Rattle.ground.specs.Writing.{Wrote};
ghost use Rattle.records.specs.Records.{number_fields, device_record};

use exports::device::Device;
use ground::writing::write;
use limits::PATH_LEN;
use wire::codes::BUSID_LEN;
use wire::number::BigEndian;

// The bytes of a device's numbers and of its whole record.
const NUMBERS_LEN: usize = 24;

pub const DEVICE_LEN: usize = PATH_LEN + BUSID_LEN + NUMBERS_LEN;

// A device's numbers, each at its place.
fn numbers(d: Device) -> [u8; NUMBERS_LEN]
    ensures { result ≡ pack (number_fields d) }
{
    let mut out = [0; NUMBERS_LEN];
    out[0..4].copy_from_slice(&d.busnum.to_bytes());
    out[4..8].copy_from_slice(&d.devnum.to_bytes());
    out[8..12].copy_from_slice(&d.speed.to_bytes());
    out[12..14].copy_from_slice(&d.idVendor.to_bytes());
    out[14..16].copy_from_slice(&d.idProduct.to_bytes());
    out[16..18].copy_from_slice(&d.bcdDevice.to_bytes());
    out[18] = d.bDeviceClass;
    out[19] = d.bDeviceSubClass;
    out[20] = d.bDeviceProtocol;
    out[21] = d.bConfigurationValue;
    out[22] = d.bNumConfigurations;
    out[23] = d.bNumInterfaces;
    out
}

// Writes a device's record at the front of a buffer, if it has room, and answers how many bytes it wrote.
#[tactic(auto, using(crate::proofs::Records::record_length, ground::proofs::Lists::unmapped))]
pub fn write_record(out: &mut [u8], d: Device) -> usize
    ensures { Wrote (device_record d) out.old out.new result }
{
    if out.len() < DEVICE_LEN {
        return 0;
    }
    write(out, &d.path);
    write(&mut out[PATH_LEN..], &d.busid);
    write(&mut out[PATH_LEN + BUSID_LEN..], &numbers(d));
    DEVICE_LEN
}
