// The arguments, made here as the Rust's half makes them.
ghost use Rattle.std.specs.Prelude.{◌<◌, pos, ◌≤ℤ◌};

use fixed::wrap;
use shifts::{range, shift};

// x, or 1 where it is below.
fn positive(x: i32) -> i32
    ensures { pos 1 ≤ℤ result }
{
    x.max(1)
}

// 2^k, with up to 2 less or more; from k = 31 also the largest number and its neighbour.
pub fn edge(k: u32, by: u32) -> i32
    requires { by < 5 }
    ensures { pos 1 ≤ℤ result }
{
    positive(wrap::sub32(wrap::add32(shift::shl32(1, k), by as i32), 2))
}

// |word|, of fewer bits the larger i modulo 31 is.
pub fn spread(word: i32, i: u32) -> i32
    ensures { pos 1 ≤ℤ result }
{
    positive(shift::shr32(range::abs32(word), i % 31))
}

// Argument i: first those around every power of two, then those of a word.
pub fn number(i: u32, word: i32) -> i32
    ensures { pos 1 ≤ℤ result }
{
    if i < 160 {
        edge(i / 5, i % 5)
    } else {
        spread(word, i)
    }
}

// The upper half of a word: a sample.
pub fn sample(word: i32) -> i16 {
    wrap::high16(word)
}
