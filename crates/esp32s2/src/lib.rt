// What the S2's eFuse says: its version and flash encryption. Its codes are `s2_codes`.
#![tactic(auto)]

pub mod encryption;
pub mod version;
