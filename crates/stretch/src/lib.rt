// The walking fill: the answers of a stretch of counts, by additions.
#![tactic(auto)]

pub mod fill;
mod ramp;
