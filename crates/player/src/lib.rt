// A tape's record, played on a session: its acts, and the lines that `replay` and `trace` print for them. What a record does and
// prints stands in specs/.
#![tactic(auto)]

mod feed;
pub mod record;
mod text;
