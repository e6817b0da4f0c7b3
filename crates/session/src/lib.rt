// The desk's work over its files.
#![tactic(auto)]

pub mod desk;
