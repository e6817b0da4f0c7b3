// The S2's calibration table for C, and flash encryption.
// Kept: each call has the name and the parameters that include/suongkivat.h declares.
#![tactic(auto)]

pub mod code;
pub mod encryption;
pub mod reading;
pub mod reference;
pub mod version;
