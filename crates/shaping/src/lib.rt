// What a path predicts: the sums of taps of one sample of the noise-shaping quantiser. Each is a step of `NSQ_del_dec.rs` under its
// name there. All arithmetic is that of `fixed`, so nothing here can overflow: a word wraps where the Rust's does.
#![tactic(auto)]

pub mod long_prediction;
pub mod short_prediction;
pub mod start;
mod taps;
