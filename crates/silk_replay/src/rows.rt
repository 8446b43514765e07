// The analysis filter on rows of three kinds: any words, the two ends of the range, and small words.
ghost use Rattle.std.specs.Prelude.{◌≤◌};

use crate::numbers;
use analysis::lpc_analysis_filter;
use fixed::wrap;
use seeds::generator;
use shifts::shift;

// Rows and coefficients of each kind, at the two orders that the quantiser has, in turn.
pub fn filter_rows() {
    let mut seed = 4;
    for i in 0..36 {
        let mut input = [0; 64];
        let mut b = [0; 16];
        seed = fill(&mut input, seed, i % 3);
        seed = fill(&mut b, seed, i / 3 % 3);
        let order = if i % 2 == 0 { 16 } else { 10 };
        filter_row(&input, &b, order);
    }
}

// One row, filtered into the middle of another, whose words before and after are to stay.
fn filter_row(input: &[i16; 64], b: &[i16; 16], order: usize)
    requires { order ≤ 16 }
{
    let mut row = [77; 80];
    lpc_analysis_filter::silk_LPC_analysis_filter(&mut row[9..], input, b, order);
    for w in row {
        numbers::print(w);
    }
}

// Words of a kind (0, 1, 2 by turns, as its half in Rust makes them), and the generator's word after them.
fn fill(row: &mut [i16], seed: i32, kind: u32) -> i32 {
    let mut word = seed;
    for w in row.iter_mut() {
        word = generator::rand(word);
        *w = sample(word, kind);
    }
    word
}

fn sample(word: i32, kind: u32) -> i16 {
    match kind {
        0 => wrap::high16(word),
        1 if word < 0 => i16::MIN,
        1 => i16::MAX,
        _ => wrap::high16(shift::shr32(word, 6)),
    }
}
