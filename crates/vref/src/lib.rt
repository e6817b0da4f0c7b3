// What Vref gives: a line's coefficients for a unit and an attenuation.
#![tactic(auto)]

pub mod coefficients;
