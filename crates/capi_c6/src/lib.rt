// The C6's codes for C.
// Kept: each call has the name and the parameters that include/suongkivat.h declares.
#![tactic(auto)]

pub mod channel;
pub mod code;
pub mod reference;
pub mod version;
