// Fields and maps for C: reading a field, the session view, and what a map is.
// Kept: each call has the name and the parameters that include/suongkivat.h declares.
#![tactic(auto)]

pub mod field;
pub mod map;
pub mod view;
