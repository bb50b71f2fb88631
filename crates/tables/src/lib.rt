// The export table as a whole: whether it keeps the rules. What they are stands in specs/.
#![tactic(auto)]

ghost use Rattle.std.specs.Prelude.{◌≡◌};
ghost use Rattle.exports.specs.Rules.{good_device, apart};
ghost use Rattle.ground.specs.Lists.{every};
ghost use Rattle.tables.specs.Tables.{distinct, good_table};

use exports::device::{Device, Table};
use exports::rules::{clash, good_device};
use limits::MAX_DEVICES;

fn all_good(devices: &[Device]) -> bool
    ensures { result ≡ every good_device devices.now }
{
    devices.iter().all(|d| good_device(*d))
}

fn clashes_with_none(d: Device, others: &[Device]) -> bool
    ensures { result ≡ every (apart d) others.now }
{
    others.iter().all(|e| !clash(d, *e))
}

fn all_distinct(devices: &[Device]) -> bool
    ensures { result ≡ distinct devices.now }
{
    for (i, d) in devices.iter().enumerate() {
        if !clashes_with_none(*d, &devices[i + 1..]) {
            return false;
        }
    }
    true
}

// Whether the table keeps every rule.
#[tactic(auto, unfolding(crate::specs::Tables::good_table))]
pub fn is_good(table: Table) -> bool
    ensures { result ≡ good_table table }
{
    let devices = table.listed();
    table.count <= MAX_DEVICES && all_good(devices) && all_distinct(devices)
}
