// The lookup's tables.
#![tactic(auto)]

pub mod row;
