// The bytes that replies show of a device: its record, and its interfaces. What each is stands in specs/.
#![tactic(auto)]

pub mod interface;
pub mod record;
