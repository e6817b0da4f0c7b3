// eFuse dumps: what a dump is, how long its blocks are, which board has which, and the session view. Reading fields is `efuse`.
#![tactic(auto)]

pub mod dump;
pub mod lengths;
pub mod view;
