// Where the samples of a subframe are: the ring's places, and what the rows' places need (`silk_noise_shape_quantizer_del_dec` of NSQ_del_dec.rs).
#![tactic(auto)]

pub mod ring;
