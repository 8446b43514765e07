// The warped shaping filter of one path: a step of `silk_noise_shape_quantizer_del_dec` of NSQ_del_dec.rs.
#![tactic(auto)]

pub mod warped_filter;
