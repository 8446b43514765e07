// The paths with their rows, made from a seed; words of 32 - s bits. Twins have the same words but for their first four rings:
// the same costs, so that the winner is among equals.
use crate::{settings, words};
use path::structs::Path;

// The seed of path k.
fn own_seed(seed: i32, k: i32, twins: bool) -> i32 {
    words::seed_of(seed, if twins { 1 } else { k })
}

fn path(seed: i32, s: u32) -> Path {
    Path {
        sAR2_Q14: words::words(seed, 7, s),
        LF_AR_Q14: words::word_of(seed, 8, s),
        Diff_Q14: words::word_of(seed, 9, s),
        Seed: words::word_of(seed, 10, 0),
        SeedInit: words::word_of(seed, 11, s),
        RD_Q10: words::word_of(seed, 12, s),
    }
}

// The numbers of the paths.
const PATHS: [i32; 4] = [1, 2, 3, 4];

// The paths of subframe c.
pub fn paths_of(c: usize, seed: i32) -> [Path; 4] {
    PATHS.map(|k| path(own_seed(seed, k, settings::twins(c)), settings::shift(c)))
}

pub fn lpc(seed: i32, s: u32, twins: bool) -> [[i32; 96]; 4] {
    PATHS.map(|k| words::words(own_seed(seed, k, twins), 1, s))
}

// The five rings of a path. Where words are short, those of RandState are of one bit, so that paths share them now and then.
fn rings_of(seed: i32, own: i32, s: u32) -> [[i32; 40]; 5] {
    let states = if s > 0 { 31 } else { 0 };
    [
        words::words(seed, 2, states),
        words::words(seed, 3, s),
        words::words(seed, 4, s),
        words::words(seed, 5, s),
        words::words(own, 6, s),
    ]
}

pub fn rings(seed: i32, s: u32, twins: bool) -> [[[i32; 40]; 5]; 4] {
    PATHS.map(|k| rings_of(words::seed_of(seed, k), own_seed(seed, k, twins), s))
}
