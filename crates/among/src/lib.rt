// The replacement of a path by another at one sample, after the winner and the penalties
// (`silk_noise_shape_quantizer_del_dec` of NSQ_del_dec.rs).
#![tactic(auto)]

pub mod replacement;
