// The fixed-point arithmetic of SILK on machine integers, one small total function for each operation; shifts and ranges are in
// `shifts`, products in `products`. Every contract says `r ≡ definition`, and the definitions (specs/) are on whole numbers: what
// wraps, what rounds and what saturates is settled there, once, and no crate above reasons about overflow again.
#![tactic(auto)]

pub mod wrap;
