// What the box exports: devices, the table of them, and the rules of one device and of two. What each is stands in specs/.
#![tactic(auto)]

pub mod device;
pub mod rules;
