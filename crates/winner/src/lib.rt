// The cheapest and the dearest of the paths at one sample (`silk_noise_shape_quantizer_del_dec` of NSQ_del_dec.rs).
#![tactic(auto)]

pub mod search;
