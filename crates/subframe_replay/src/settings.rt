// The settings of subframe c, below 384.
ghost use Rattle.std.specs.Prelude.{◌<◌, ◌≤◌, pos, ◌≤ℤ◌};

use crate::words;
use path::structs::{Fix, Halves};

const SHAPINGS: [usize; 4] = [2, 12, 16, 24];

const OFFSETS: [i32; 4] = [100, 240, 32, 100];

const GAINS: [i32; 8] = [
    65536, 1, 81920, 2147483647, 400000, 1073741824, 30000000, 16,
];

const SHIFTS: [u32; 4] = [0, 7, 12, 17];

const HALF_SHIFTS: [u32; 4] = [0, 3, 5, 7];

// How many bits words and halves have less.
pub fn shift(c: usize) -> u32 {
    SHIFTS[c / 96 % 4]
}

pub fn half_shift(c: usize) -> u32 {
    HALF_SHIFTS[c / 96 % 4]
}

pub fn gain(c: usize) -> i32
    requires { c < 384 }
    ensures { pos 1 ≤ℤ result }
{
    GAINS[c * 3 % 8].max(1)
}

// The gain before it, at times the same.
pub fn previous_gain(c: usize) -> i32
    requires { c < 384 }
    ensures { pos 1 ≤ℤ result }
{
    GAINS[(c * 3 + c / 8) % 8].max(1)
}

// The subframe's number in its frame.
pub fn number(c: usize) -> usize
    requires { c < 384 }
    ensures { result < 4 }
{
    c * 5 / 3 % 4
}

// Whether the paths are twins.
pub fn twins(c: usize) -> bool {
    c % 5 == 4
}

pub fn voiced(c: usize) -> bool {
    c / 48 % 2 == 1
}

pub fn rewhitened(c: usize) -> bool
    requires { c < 384 }
{
    voiced(c) && number(c) % 2 == 0
}

// Where the subframe starts in the frame, at l samples each.
fn base(c: usize, l: usize) -> usize
    requires { (c < 384) × (l ≤ 80) }
    ensures { result ≤ 240 }
{
    number(c) * l
}

// From 2 L / 5 to 18 L / 5; or none.
fn lag(c: usize) -> usize
    requires { c < 384 }
    ensures { result ≤ 288 }
{
    if !voiced(c) && c % 3 == 0 {
        return 0;
    }
    match c / 4 % 3 {
        0 => 16 + c * 37 % 129,
        1 => 24 + c * 37 % 193,
        _ => 32 + c * 37 % 257,
    }
}

// 40, or 3 less than the lag, where it is voiced.
fn delay(c: usize, lag: usize) -> usize
    requires { c < 384 }
    ensures { result ≤ 40 }
{
    if !voiced(c) {
        return 13 + c % 28;
    }
    lag.saturating_sub(3).min(40)
}

// Subframe 0, and others too, so that the words that the work row keeps unscaled can be seen.
fn first(c: usize) -> bool
    requires { c < 384 }
{
    number(c) == 0 || c % 7 == 3
}

// Where the subframe starts in the work row: where the history ends, after it is rewhitened.
fn buf(c: usize, l: usize, base: usize) -> usize
    requires { (c < 384) × ((l ≤ 80) × (base ≤ 240)) }
{
    if rewhitened(c) {
        return 4 * l;
    }
    4 * l + base
}

// Word number `by` of subframe c.
fn setting(c: usize, seed: i32, by: i32) -> i32 {
    words::word_of(seed, by, shift(c))
}

pub fn fix(c: usize, seed: i32, inv_gain_Q26: i32) -> Fix
    requires { c < 384 }
{
    let l = 40 + 20 * (c / 4 % 3);
    let base = base(c, l);
    let lag = lag(c);
    Fix {
        subfr_length: l,
        predictLPCOrder: if l == 80 { 16 } else { 10 },
        shapingLPCOrder: SHAPINGS[c / 12 % 4],
        nStates: 1 + c % 4,
        voiced: voiced(c),
        offset_Q10: OFFSETS[c % 4],
        Lambda_Q10: setting(c, seed, 14),
        lag,
        LF_shp_Q14: setting(c, seed, 15),
        Gain_Q16: gain(c),
        inv_gain_Q26,
        decisionDelay: delay(c, lag),
        base,
        buf: buf(c, l, base),
        first: first(c),
    }
}

pub fn halves(c: usize, seed: i32) -> Halves {
    Halves {
        warping_Q16: setting(c, seed, 18),
        Tilt_Q14: setting(c, seed, 16),
        HarmShapeFIRPacked_Q14: setting(c, seed, 17),
    }
}

pub fn ltp_scale(c: usize, seed: i32) -> i32 {
    setting(c, seed, 19)
}
