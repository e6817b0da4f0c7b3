// What the desk answers between a read and a write: the step of one sample by the desk's table, and the lines of a part of a log.
#![tactic(auto)]

pub mod part;
pub mod step;
