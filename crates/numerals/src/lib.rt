// Numbers as text, and text that is put together by value. What each is stands in specs/.
#![tactic(auto)]

pub mod number;
pub mod text;
