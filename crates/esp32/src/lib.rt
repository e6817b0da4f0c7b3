// The ESP32's line calibration: its codes, its coefficients, and the line record that is decoded from them.
#![tactic(auto)]

mod characterize;
mod code;
pub mod decode;
