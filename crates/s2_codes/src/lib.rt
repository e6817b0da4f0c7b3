// The S2's codes: initial and reference codes, by its version and its table's readings.
#![tactic(auto)]

pub mod code;
