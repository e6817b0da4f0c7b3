// Sample logs for C: a log's next sample, and a sample's answer.
// Kept: each call has the name and the parameters that include/suongkivat.h declares.
#![tactic(auto)]

pub mod answer;
pub mod log;
