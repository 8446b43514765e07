// The lower of the two pulses that a residual is tried with.
ghost use Rattle.std.specs.Prelude.{◌≡◌};
ghost use Rattle.levels.specs.Levels.{biased as biased_z, q1_Q0};

use fixed::wrap;
use shifts::shift;

// Rounded towards zero by `bias` more, where a pulse is dear.
fn biased(q: i32, bias: i32) -> i32
    ensures { result ≡ biased_z q bias }
{
    if q > bias {
        return shift::shr32(wrap::sub32(q, bias), 10);
    }
    if q < wrap::neg32(bias) {
        return shift::shr32(wrap::add32(q, bias), 10);
    }
    if q < 0 { -1 } else { 0 }
}

// The lower pulse for q, which is the residual less the offset.
pub fn lower_pulse(q: i32, lambda: i32) -> i32
    ensures { result ≡ q1_Q0 q lambda }
{
    if lambda > 2048 {
        return biased(q, wrap::sub32(lambda / 2, 512));
    }
    shift::shr32(q, 10)
}
