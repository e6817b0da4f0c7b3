// The curves of all chips, and what each takes off a line answer.
#![tactic(auto)]

pub mod error;
mod flat;
mod polynomial;
