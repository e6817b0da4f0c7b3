// The words for a bad record of an ESP32's map.
#![tactic(auto)]

pub mod told;
