// Shifts with and without rounding, and ranges, of 32-bit words; their definitions and laws are in `fixed`.
#![tactic(auto)]

pub mod range;
pub mod shift;
