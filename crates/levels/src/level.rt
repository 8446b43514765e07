// The levels of the two pulses, each with its size times Lambda: the four cases of NSQ_del_dec.rs.
ghost use Rattle.std.specs.Prelude.{◌≡◌};
ghost use Rattle.levels.specs.Levels.{above as above_z, at_zero, at_minus_one, below as below_z, tried as tried_z};

use fixed::wrap;
use products::product;
use shifts::shift;

// The lower and the upper level, and what |level| * Lambda is of each before the noise is added.
#[derive(Clone, Copy)]
pub struct Pair {
    pub q1: i32,
    pub rd1: i32,
    pub q2: i32,
    pub rd2: i32,
}

// One function for each of the definition's four cases, which differ in a sign and in what is known of a level.

fn above(p: i32, offset: i32, lambda: i32) -> Pair
    ensures { result ≡ above_z p offset lambda }
{
    let q1 = wrap::add32(wrap::sub32(shift::shl32(p, 10), 80), offset);
    let q2 = wrap::add32(q1, 1024);
    Pair {
        q1,
        rd1: product::smulbb(q1, lambda),
        q2,
        rd2: product::smulbb(q2, lambda),
    }
}

fn at_zero(offset: i32, lambda: i32) -> Pair
    ensures { result ≡ at_zero offset lambda }
{
    let q2 = wrap::add32(offset, 1024 - 80);
    Pair {
        q1: offset,
        rd1: product::smulbb(offset, lambda),
        q2,
        rd2: product::smulbb(q2, lambda),
    }
}

fn at_minus_one(offset: i32, lambda: i32) -> Pair
    ensures { result ≡ at_minus_one offset lambda }
{
    let q1 = wrap::sub32(offset, 1024 - 80);
    Pair {
        q1,
        rd1: product::smulbb(wrap::neg32(q1), lambda),
        q2: offset,
        rd2: product::smulbb(offset, lambda),
    }
}

fn below(p: i32, offset: i32, lambda: i32) -> Pair
    ensures { result ≡ below_z p offset lambda }
{
    let q1 = wrap::add32(wrap::add32(shift::shl32(p, 10), 80), offset);
    let q2 = wrap::add32(q1, 1024);
    Pair {
        q1,
        rd1: product::smulbb(wrap::neg32(q1), lambda),
        q2,
        rd2: product::smulbb(wrap::neg32(q2), lambda),
    }
}

// The lower pulse p and the one above it.
pub fn tried(p: i32, offset: i32, lambda: i32) -> Pair
    ensures { result ≡ tried_z p offset lambda }
{
    if p > 0 {
        return above(p, offset, lambda);
    }
    if p == 0 {
        return at_zero(offset, lambda);
    }
    if p == -1 {
        return at_minus_one(offset, lambda);
    }
    below(p, offset, lambda)
}
