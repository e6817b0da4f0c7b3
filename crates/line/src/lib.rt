// Line calibration: what a line record converts a count to.
#![tactic(auto)]

pub mod convert;
pub mod lookup;
