// The inverse and the quotient of numbers in fixed point (`Inlines.rs`).
#![tactic(auto)]

pub mod inlines;
mod inverse;
