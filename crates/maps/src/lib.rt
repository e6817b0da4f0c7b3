// Field maps: the map itself, and the value of a mapped field.
#![tactic(auto)]

pub mod map;
pub mod value;
