// Words and numbers, put into lent bytes.
#![tactic(auto)]

pub mod put;
