// The reference voltages of the S2 and of the C6, which need no dump.
// Kept: a module each: the two calls share one line, `check_unit(unit, atten)?;`, and the C6's table goes by its version.
#![tactic(auto)]

pub mod c6;
pub mod s2;
