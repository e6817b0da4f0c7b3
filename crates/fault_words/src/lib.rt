// The words for what is wrong with one of the desk's files.
#![tactic(auto)]

pub mod told;
