// The arguments, made from a seed.
use fixed::wrap;
use seeds::generator;
use shifts::shift;

// The seed of the next argument.
pub fn next(seed: i32) -> i32 {
    generator::rand(generator::rand(seed))
}

// A word of the kind that the seed's upper four bits choose: an end of the range, 0, -1, a word of 12, 20 or 26 bits, or any.
pub fn word(seed: i32) -> i32 {
    let any = generator::rand(seed);
    match shift::shr32(seed, 28) {
        -8 => i32::MIN,
        -7 => i32::MAX,
        -6 => 0,
        -5 => -1,
        -4 => shift::shr32(any, 20),
        -3 => shift::shr32(any, 12),
        -2 => shift::shr32(any, 6),
        _ => any,
    }
}

// A 16-bit word: an end of the range, 0, -1 or any.
pub fn half(seed: i32) -> i16 {
    match shift::shr32(seed, 28) {
        -8 => i16::MIN,
        -7 => i16::MAX,
        -6 => 0,
        -5 => -1,
        _ => wrap::high16(generator::rand(seed)),
    }
}

// A level: any word, or one that is at most 2 away from a multiple of 512, where the rounding turns.
pub fn level(seed: i32) -> i32 {
    if seed < 0 {
        word(next(seed))
    } else {
        let near = generator::rand(seed);
        let turn = shift::shl32(shift::shr32(near, 20), 9);
        wrap::add32(turn, shift::shr32(generator::rand(near), 30))
    }
}

// A row made by `of`, of the seed and those that come next.
fn fill<T: Copy, F: Fn(i32) -> T>(row: &mut [T], seed: i32, of: F)
    requires { F.IsAlwaysCallable of }
{
    let mut at = seed;
    for w in row.iter_mut() {
        *w = of(at);
        at = next(at);
    }
}

pub fn words<const N: usize>(seed: i32) -> [i32; N] {
    let mut row = [0; N];
    fill(&mut row, seed, word);
    row
}

pub fn halves<const N: usize>(seed: i32) -> [i16; N] {
    let mut row = [0; N];
    fill(&mut row, seed, half);
    row
}
