// The desk's files: dumps, list and map are read whole, the log part by part; what is wrong with them is told on standard error.
#![tactic(auto)]

pub mod log;
pub mod read;
