// The harmonic noise term of a sample (`silk_noise_shape_quantizer_del_dec` of NSQ_del_dec.rs). All arithmetic is that of `fixed`,
// so nothing here can overflow: a word wraps where the Rust's does.
#![tactic(auto)]

pub mod terms;
