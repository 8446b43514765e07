// The program `sheet` as a function of its bytes, and its parts, on which other programs on sheets stand: a sheet's call, and its text.
#![tactic(auto)]

pub mod call;
pub mod page;
