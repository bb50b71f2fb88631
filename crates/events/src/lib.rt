// What the acts answer, and what each event of a feed comes to: the next link, the change of the pending list, the reply. All by
// value, and with neither the table nor the list: a plan, which `session` carries out.
#![tactic(auto)]

pub mod answer;
pub mod message;
pub mod plan;
pub mod request;
