// Words made from a seed.
use fixed::wrap;
use seeds::generator;
use shifts::shift;

// The seed of row number `by`.
pub fn seed_of(seed: i32, by: i32) -> i32 {
    generator::rand(wrap::add32(seed, wrap::mul32(by, 1640531527)))
}

// Not the words of `shaping_replay`: other kinds, as its half in Rust makes them.

// A word of 32 - s bits; of all 32 bits the ends of the range and short words too.
fn word(seed: i32, s: u32) -> i32 {
    let any = generator::rand(seed);
    if s > 0 {
        return shift::shr32(any, s);
    }
    match shift::shr32(seed, 28) {
        -8 => i32::MIN,
        -7 => i32::MAX,
        -6 => 0,
        -5 => -1,
        -4 => shift::shr32(any, 20),
        -3 => shift::shr32(any, 12),
        _ => any,
    }
}

// Word number `by`.
pub fn word_of(seed: i32, by: i32, s: u32) -> i32 {
    word(seed_of(seed, by), s)
}

// A word of 16 - s bits; of all 16 bits the ends of the range too.
fn half(seed: i32, s: u32) -> i16 {
    let any = generator::rand(seed);
    if s > 0 {
        return wrap::high16(shift::shr32(any, s));
    }
    match shift::shr32(seed, 28) {
        -8 => i16::MIN,
        -7 => i16::MAX,
        -6 => 0,
        _ => wrap::high16(any),
    }
}

// Row number `by`, made by `of`.
fn fill<T: Copy, F: Fn(i32) -> T>(row: &mut [T], seed: i32, by: i32, of: F)
    requires { F.IsAlwaysCallable of }
{
    let mut at = seed_of(seed, by);
    for w in row.iter_mut() {
        at = generator::rand(generator::rand(at));
        *w = of(at);
    }
}

pub fn words<const N: usize>(seed: i32, by: i32, s: u32) -> [i32; N] {
    let mut row = [0; N];
    fill(&mut row, seed, by, |at| word(at, s));
    row
}

pub fn halves<const N: usize>(seed: i32, by: i32, s: u32) -> [i16; N] {
    let mut row = [0; N];
    fill(&mut row, seed, by, |at| half(at, s));
    row
}
