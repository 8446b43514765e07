// The products of SILK's fixed point, one small total function for each, as in `fixed`.
#![tactic(auto)]

pub mod product;
