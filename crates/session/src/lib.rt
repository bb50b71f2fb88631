// The session of one connection (PROTOCOL.md, 2 and 3): open, feed, complete, close, the inquiry for stale requests, and its five numbers.
// What each answers and leaves stands in specs/. What an act will do is decided by `feeding` and `settling`; here it is carried out.
#![tactic(auto)]

pub mod act;
pub mod answer;
mod carry;
pub mod state;
