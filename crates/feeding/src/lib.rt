// What a feed will do, decided by value before anything is written: what must be looked up for a piece, which event its bytes are,
// and what goes where. `session` looks up, and carries out.
#![tactic(auto)]

pub mod ask;
pub mod message;
pub mod request;
