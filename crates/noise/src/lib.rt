// The noise terms of a sample, the residual that is left to code, and the numbers that a coded sample hands out (NSQ_del_dec.rs).
// All arithmetic is that of `fixed`, so nothing here can overflow: a word wraps where the Rust's does.
#![tactic(auto)]

pub mod noise_terms;
pub mod output;
pub mod residual;
