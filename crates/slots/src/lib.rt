// The pending URBs where they stand: the operations on a slice of URBs that is lent, one at a time and part by part. None asks anything of its
// caller: a place past the end is none, and a part ends where the slice does.
#![tactic(auto)]

pub mod change;
pub mod look;
pub mod part;
pub mod read;
pub mod seek;
