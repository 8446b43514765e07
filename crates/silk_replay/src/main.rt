// Replays answers of the Rust (unopus 0.0.1): what this program prints is held to the file `stdout` beside it, which the
// Rust made. Both sides make the same arguments: numbers around every power of two, and what the generator of crate
// `seeds` gives from a seed.
//
// To make `stdout` anew, build tests/rust/silk_replay.rs for release over the crate's `src/silk` and keep what it prints.
// It calls `silk_INVERSE32_varQ`, `silk_DIV32_varQ` and `silk_LPC_analysis_filter` of the crate itself, and has the lines
// of `silk_nsq_del_dec_scale_states` that make something of a gain word for word.
#![tactic(auto)]

mod arguments;
mod numbers;
mod rows;

use gain_terms::gains;
use inverses::inlines;
use seeds::generator;

fn main() {
    inverses();
    quotients_of_edges();
    quotients_of_words();
    scalings();
    rows::filter_rows();
}

// The inverse in Q 47, as the quantiser has it, and in others.
fn inverses() {
    let mut seed = 1;
    for i in 0..2048 {
        seed = generator::rand(seed);
        let b32 = arguments::number(i, seed);
        numbers::print(inlines::silk_INVERSE32_varQ(b32, 47));
        numbers::print(inlines::silk_INVERSE32_varQ(b32, i % 63));
    }
}

// The quotient in Q 16 of each two powers of two, or of numbers beside them.
fn quotients_of_edges() {
    for i in 0..1024 {
        let a32 = arguments::edge(i / 32, i % 5);
        let b32 = arguments::edge(i % 32, i / 7 % 5);
        numbers::print(inlines::silk_DIV32_varQ(a32, b32, 16));
    }
}

// The quotient in Q 16, and in others, of numbers of every size.
fn quotients_of_words() {
    let mut seed = 2;
    for i in 0..1024 {
        let first = generator::rand(seed);
        seed = generator::rand(first);
        let a32 = arguments::spread(first, i / 31);
        let b32 = arguments::spread(seed, i);
        numbers::print(inlines::silk_DIV32_varQ(a32, b32, 16));
        numbers::print(inlines::silk_DIV32_varQ(a32, b32, i % 31));
    }
}

// What is made of a gain, of gains of every size, 0 and less among them.
fn scalings() {
    let mut seed = 3;
    for i in 0..320 {
        let first = generator::rand(seed);
        seed = generator::rand(first);
        let prev = arguments::spread(first, i / 31);
        let gain = arguments::number(i, seed);
        scaling(gain, first);
        scaling(first, seed);
        numbers::print(gains::gain_adj_Q16(prev, gain));
    }
}

fn scaling(gain: i32, word: i32) {
    let inv31 = gains::inv_gain_Q31(gain);
    let inv26 = gains::inv_gain_Q26(inv31);
    numbers::print(inv31);
    numbers::print(inv26);
    numbers::print(gains::inv_gain_Q26(word));
    numbers::print(gains::x_sc_Q10(arguments::sample(word), inv26));
    numbers::print(gains::ltp_scaled_inv_gain(inv31, word));
}
