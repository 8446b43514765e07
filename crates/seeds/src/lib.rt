// The generator of the signs, RFC 6716, 4.2.7.8.6 (`silk_RAND` of `SigProc_FIX.rs`).
#![tactic(auto)]

pub mod generator;
