// Curve correction of line answers, for the chips that have it.
#![tactic(auto)]

pub mod correct;
pub(crate) mod table;
