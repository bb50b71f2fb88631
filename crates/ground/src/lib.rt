// What is about no protocol: parts of slices, the writing of bytes into a buffer, and in specs/ and proofs/ ordered tables of tests, and laws of lists.
#![tactic(auto)]

pub mod part;
pub mod writing;
