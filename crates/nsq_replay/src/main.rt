// Replays whole calls that the Rust has answered: 54 that tell the right quantiser from wrong variants of it, refusals of every
// number among them, 40 of which each starts from the state that the one before left, the marked examples of docs/RULES.md, and
// two pairs that differ in the sample at t alone and then in the pulse at t - D. The list is on standard input; for each call its
// answer, seed, pulses and two digests of its state are printed.
//
// The file `stdout` was not made by this program: the Rust printed it, with the lag 100 in a fresh state (it was made again for
// request E3). To repeat that: tools/oracle, then target/oracle/oracle stream --digest < crates/nsq_replay/stdin.
#![tactic(auto)]

mod digest;
mod input;
mod print;
mod state;
mod stream;

use crate::state::Held;

// All calls of the list, at most 256.
fn main() {
    let mut held = Held::fresh();
    for _ in 0..256 {
        held = stream::next(held);
    }
}
