// Replays rows that the reader has to answer: every seed and type, every pulse, refusals alone and together, the generator at the edge of its
// sign, and frames that the Rust coded with one path. The list is on standard input, a row on a line:
// NAME seed signal_type offset_type row_length pulses .., where v*n stands for n times v and `#` begins a remark. For each row its name, the
// answer and the whole lent row are printed, which holds 1000000007 everywhere before the call.
//
// The file `stdout` was not made by this program: a reference written from the RFC's text made it, and for the coded frames the Rust itself,
// a 64th of the excitation that it used inside. To repeat the first: tests/reference/excitation.py < crates/excitation_replay/stdin.
#![tactic(auto)]

mod input;
mod print;
mod rows;

// All lines of the list, at most 512.
fn main() {
    for _ in 0..512 {
        rows::next();
    }
}
