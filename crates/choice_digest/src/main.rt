// For each of 208 Lambdas, a digest of the candidate choice over all 62465 residuals and the four entries of the offset table:
// 52 million choices. A line has Lambda and its digest, each as eight hexadecimal digits.
//
// The file `stdout` beside src/ was written by the Rust, not by this program: by tests/rust/choice_digest.rs, which runs the same
// loop over the lines of NSQ_del_dec.rs, cut out unchanged into a function, and over its offset table. That file says how to repeat it.
#![tactic(auto)]

use choice::candidate;
use digests::fnv::Fnv32;
use fixed::wrap;
use prints::output::Output;
use residuals::offset;
use seeds::generator;
use shifts::shift;
use std::fmt::Write;

// The Lambdas where a step of the choice changes its ways, and the ends of the types.
const NAMED: [i32; 64] = [
    -2147483648,
    -2147483647,
    -65537,
    -65536,
    -65535,
    -49152,
    -32769,
    -32768,
    -32767,
    -16384,
    -4096,
    -2049,
    -2048,
    -1025,
    -1024,
    -2,
    -1,
    0,
    1,
    2,
    255,
    256,
    511,
    512,
    513,
    1023,
    1024,
    1025,
    1104,
    1105,
    1536,
    2047,
    2048,
    2049,
    2050,
    2051,
    3071,
    3072,
    3073,
    4095,
    4096,
    4097,
    4098,
    6022,
    8191,
    16383,
    16384,
    32766,
    32767,
    32768,
    32769,
    61440,
    62464,
    63488,
    64511,
    64512,
    65535,
    65536,
    65537,
    98303,
    98304,
    1073741824,
    2147483646,
    2147483647,
];

// Lambda number k: a named one, then by turns any word, a word of 17 bits and one from 0 to 8191.
fn lambda_of(k: usize, seed: i32) -> i32 {
    if k < 64 {
        return NAMED[k];
    }
    match k % 3 {
        0 => seed,
        1 => shift::shr32(seed, 15),
        _ => wrap::add32(shift::shr32(seed, 19), 4096),
    }
}

// One choice more: each word goes in with its sign bit turned.
fn with_choice(h: Fnv32, r: i32, lambda: i32, offset: i32) -> Fnv32 {
    let c = candidate::candidates(r, lambda, offset);
    let words = [c.first_level, c.first_cost, c.second_level, c.second_cost];
    words.iter().fold(h, |h, x| h.word(*x ^ i32::MIN))
}

// The choices of every residual at the four entries of the offset table.
fn digest(lambda: i32) -> Fnv32 {
    let offsets = [
        offset::quant_offset(0, 0),
        offset::quant_offset(0, 1),
        offset::quant_offset(2, 0),
        offset::quant_offset(2, 1),
    ];
    let mut h = Fnv32::new();
    for r in -31744..=30720 {
        for offset in offsets {
            h = with_choice(h, r, lambda, offset);
        }
    }
    h
}

// A Lambda is written before its digest is worked out. A write that fails is passed over: the run goes on to its end.
fn main() {
    let mut seed = 0;
    for k in 0..208usize {
        seed = generator::rand(seed);
        let lambda = lambda_of(k, seed);
        let _ = write!(Output, "{:08x} ", lambda.cast_unsigned());
        let _ = writeln!(Output, "{:08x}", digest(lambda).sum);
    }
}
