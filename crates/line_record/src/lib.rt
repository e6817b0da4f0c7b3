// The line record: what converting and filling go by; and what a decoding is refused with.
#![tactic(auto)]

pub mod decoded;
pub mod record;
