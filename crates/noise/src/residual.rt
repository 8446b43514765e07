// What is left of a sample to code.
ghost use Rattle.std.specs.Prelude.{◌≡◌};
ghost use Rattle.noise.specs.Residual.{residual as residual_z};

use fixed::wrap;
use shifts::shift;

// The scaled sample less its prediction, with the shaped noise.
pub fn residual(n_ar: i32, n_lf: i32, n_ltp: i32, lpc_pred: i32, x_q10: i32) -> i32
    ensures { result ≡ residual_z n_ar n_lf n_ltp lpc_pred x_q10 }
{
    let noise = wrap::add32(n_ar, n_lf);
    let prediction = wrap::add32(n_ltp, lpc_pred);
    let rounded = shift::rshift_round(wrap::sub32(prediction, noise), 4);
    wrap::sub32(x_q10, rounded)
}
