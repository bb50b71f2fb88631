// The engine for C and Rust: the functions of include/rimemaple.h. A session goes in by value and the next one comes back; a slice is
// a pointer and a length. What an act answers with an enum stands here as numbers, by one definition of specs/Flat.antt.
#![tactic(auto)]

pub mod about;
pub mod acts;
pub mod flat;
pub mod sending;
