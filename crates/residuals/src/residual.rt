// The residual before the choice, and what is made of a chosen level after it. The generator's sign acts on both.
ghost use Rattle.std.specs.Prelude.{◌≡◌};
ghost use Rattle.residuals.specs.Residual.{turned, signed_residual, signed_excitation, pulse_of, seed_with};

use fixed::wrap;
use shifts::{range, shift};

// The sign step: v, negated where the seed is negative.
pub fn turned(seed: i32, v: i32) -> i32
    ensures { result ≡ turned seed v }
{
    if seed < 0 { wrap::neg32(v) } else { v }
}

// The residual, negated where the seed is negative, and only then held to its range, which is not symmetric.
pub fn signed_residual(seed: i32, r: i32) -> i32
    ensures { result ≡ signed_residual seed r }
{
    range::clamp32(turned(seed, r), -31744, 30720)
}

// The excitation (Q14) of a level (Q10), with the sign of the seed.
pub fn signed_excitation(seed: i32, level: i32) -> i32
    ensures { result ≡ signed_excitation seed level }
{
    turned(seed, shift::shl32(level, 4))
}

// The pulse whose level this is.
pub fn pulse_of(level: i32) -> i32
    ensures { result ≡ pulse_of level }
{
    shift::rshift_round(level, 10)
}

// The seed after the pulse of the kept level.
pub fn seed_with(seed: i32, level: i32) -> i32
    ensures { result ≡ seed_with seed level }
{
    wrap::add32(seed, pulse_of(level))
}
