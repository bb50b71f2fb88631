// The lines that `replay` prints, as bytes. What each is stands in specs/.
#![tactic(auto)]

pub mod replay;
