// The samples of a subframe on all paths (`silk_noise_shape_quantizer_del_dec` of NSQ_del_dec.rs): what all paths share at a sample, then each
// path's two candidates, then the choice among the paths, what leaves, and the loop over the samples.
#![tactic(auto)]

mod common;
mod each;
mod sample;
pub mod subframe;
mod turn;
