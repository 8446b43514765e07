// One pulse of a frame: its value, and the seed after it.
ghost use Rattle.std.specs.Prelude.{◌≡◌, ◌^◌, pos, ◌≤ℤ◌};
ghost use Rattle.fixed.specs.Wrap.{mod_z, wrap32};
ghost use Rattle.rfc6716.specs.Excitation.{value as value_z, next_seed, signed, seed_after};

use fixed::wrap;
use residuals::residual;
use seeds::generator;
use shifts::shift;

// The value (Q23) of a pulse, and the generator's word after it.
#[derive(Clone, Copy)]
pub struct After {
    pub e_Q23: i32,
    pub seed: i32,
}

// What a pulse stands for, before its sign step: 256 times the pulse, 20 nearer to zero, and the offset.
fn value(offset: i32, x: i32) -> i32
    ensures { result ≡ wrap32 (value_z offset x) }
{
    let v = shift::shl32(x, 8);
    if 0 < x {
        return wrap::add32(wrap::sub32(v, 20), offset);
    }
    if x < 0 {
        return wrap::add32(wrap::add32(v, 20), offset);
    }
    wrap::add32(v, offset)
}

// One pulse: the generator steps, the value takes its sign from the new word, and the pulse is added to that word with its own sign.
pub fn pulse(offset: i32, seed: i32, x: i8) -> After
    requires { (pos 0 ≤ℤ offset) × (offset ≤ℤ pos 60) }
    ensures value { result.e_Q23 ≡ signed (next_seed (mod_z seed (2 ^ 32))) (value_z offset x) }
    ensures seed { mod_z result.seed (2 ^ 32) ≡ seed_after (next_seed (mod_z seed (2 ^ 32))) x }
{
    let p = x as i32;
    let next = generator::rand(seed);
    let after = wrap::add32(next, p);
    let v = value(offset, p);
    After {
        e_Q23: residual::turned(next, v),
        seed: after,
    }
}
