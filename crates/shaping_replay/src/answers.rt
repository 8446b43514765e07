// The answers of the functions that take rows, or more words than three, to the arguments of a seed and of the turn i.
use crate::words;
use fixed::wrap;
use harmonic::terms;
use noise::residual;
use shaping::{long_prediction, short_prediction};
use warped::warped_filter;

// Both orders, and every place of the row.
pub fn short(seed: i32, i: usize) -> i32 {
    let next = words::next(seed);
    let buf = words::words(next);
    let coef = words::halves::<24>(words::next(next));
    let order = 10 + 6 * (i % 2);
    let at = 15 + i % 81;
    short_prediction::silk_noise_shape_quantizer_short_prediction(&buf, at, &coef, order)
}

pub fn long(seed: i32, i: usize) -> i32 {
    let next = words::next(seed);
    let row = words::words(next);
    let b = words::halves::<24>(words::next(next));
    long_prediction::ltp_prediction(&row, 4 + i % 636, &b)
}

pub fn harmonic_term(seed: i32, i: usize) -> i32 {
    let next = words::next(seed);
    let shp = words::words(next);
    let [b, c] = words::words::<2>(next);
    terms::n_LTP(&shp, 2 + i % 638, b, c)
}

// Every even order from 2 to 24.
fn warped(s: &mut [i32; 24], seed: i32, i: usize) -> i32 {
    let b = words::next(seed);
    let c = words::next(b);
    let ar = words::halves::<24>(c);
    let order = 2 + 2 * (i % 12);
    warped_filter::warped_filter(s, &ar, order, words::half(b), words::word(c))
}

pub fn warped_sum(seed: i32, i: usize) -> i32 {
    let mut s = words::words(words::next(seed));
    warped(&mut s, seed, i)
}

// All 24 words in one: each is added to 31 times what came before.
pub fn warped_words(seed: i32, i: usize) -> i32 {
    let mut s = words::words(words::next(seed));
    warped(&mut s, seed, i);
    s.iter()
        .fold(0, |all, w| wrap::add32(wrap::mul32(all, 31), *w))
}

pub fn residual(seed: i32) -> i32 {
    let [a, b, c, d, e] = words::words::<5>(seed);
    residual::residual(a, b, c, d, e)
}
