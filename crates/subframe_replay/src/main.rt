// Replays answers of the Rust to whole subframes: the change of gain, then the samples, on 384 subframes of 1 to 4 paths, of
// every length, order and shaping order, voiced and not, from any 32-bit words down to words of 15 bits. A line has the digests
// of one subframe: the paths' short words, their LPC words that count (0 to 15 and L to L + 15), their rings, the work row, the delayed
// gains, the history, the shaping words, the pulses.
//
// The file `stdout` was not made by this program. tests/rust/subframe_replay.rs makes the same settings and rows, and calls the
// two functions of `NSQ_del_dec.rs` (unopus 0.0.1) themselves; that file says how to repeat it.
#![tactic(auto)]

mod digest;
mod fits;
mod rows;
mod settings;
mod subframe;
mod words;

use seeds::generator;

fn main() {
    let mut seed = 1;
    for c in 0..384 {
        seed = generator::rand(seed);
        subframe::replay(c, seed);
    }
}
