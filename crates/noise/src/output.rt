// What a coded sample hands out: its pulse, and the sample that the decoder will have.
ghost use Rattle.std.specs.Prelude.{◌≡◌, ◌<◌, ◌≤◌};
ghost use Rattle.noise.specs.Output.{pulse_of, xq_out};

use fixed::wrap;
use products::product;
use residuals::residual;
use shifts::{range, shift};

// The pulse that is handed out for a level.
pub fn pulse_of(q_q10: i32) -> i8
    ensures { result ≡ pulse_of q_q10 }
{
    wrap::low8(residual::pulse_of(q_q10))
}

// The output sample: by 8 places at a gain of 10 binary places, as each coded sample and the last flush have it, by 14 at one of 16, as the
// flush in the middle of a frame has it. It asks for a count that the rounded shift takes.
pub fn xq_out(xq_q14: i32, gain: i32, places: u32) -> i16
    requires { (2 ≤ places) × (places < 32) }
    ensures { result ≡ xq_out xq_q14 gain places }
{
    range::sat16(shift::rshift_round(product::smulww(xq_q14, gain), places))
}
