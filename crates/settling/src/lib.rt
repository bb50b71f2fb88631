// What a completion and a close will do, decided by value before anything is written. `session` looks up, and carries it out.
#![tactic(auto)]

pub mod close;
pub mod completion;
