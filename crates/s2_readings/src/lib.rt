// The readings of the S2's calibration table.
#![tactic(auto)]

pub mod reading;
mod table;
pub mod tag;
