// The penalty of the paths that were others than the winner at the decision delay (`silk_noise_shape_quantizer_del_dec` of NSQ_del_dec.rs).
#![tactic(auto)]

pub mod penalties;
