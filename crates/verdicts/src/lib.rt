// The numbers of PROTOCOL.md, 5 and 6: its ordered tables of tests, each decided from values alone. What they are stands in specs/.
#![tactic(auto)]

pub mod verdict;
