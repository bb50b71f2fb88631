// The replay tape (PROTOCOL.md, 10): its records, read from bytes, and the table of the session that it is replayed on. What each is stands
// in specs/.
#![tactic(auto)]

pub mod iso;
pub mod layout;
pub mod reader;
pub mod table;
