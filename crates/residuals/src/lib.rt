// A residual before the choice and a level after it: the sign by the seed, the range, the pulse, and the offsets (NSQ_del_dec.rs).
#![tactic(auto)]

pub mod offset;
pub mod residual;
