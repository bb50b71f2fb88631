// The link to the client, and the guard that takes one whose parts don't fit together for closed. What it stands for is in
// specs/.
#![tactic(auto)]

pub mod guard;
pub mod link;
