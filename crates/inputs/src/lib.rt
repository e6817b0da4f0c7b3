// What a call that goes by a field map checks before it reads.
#![tactic(auto)]

pub mod input;
