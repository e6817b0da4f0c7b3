// The C6's calibration: its initial and reference codes, and channel compensation.
#![tactic(auto)]

pub mod channel;
pub mod code;
mod field;
