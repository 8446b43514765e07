// What all paths share at a sample.
ghost use Rattle.std.specs.Prelude.{◌≡◌, ◌+◌, ◌<◌, ◌≤◌, length};
ghost use Rattle.places.specs.Places.{Fits};
ghost use Rattle.steps.specs.Shared.{predicted as predicted_z, harmonic as harmonic_z, common_from};

use gain_terms::gains;
use harmonic::terms as harmonic_terms;
use path::structs::{Coefs, Common, Fix, Work};
use shaping::long_prediction;

// The long-term prediction, in a voiced frame.
fn predicted(f: Fix, b: &[i16], ltp: &[i32; 640], i: usize) -> i32
    requires { Fits f × ((i < f.subfr_length) × (5 ≤ length b.now)) }
    ensures { result ≡ predicted_z f b.now ltp.now i }
{
    if f.voiced {
        long_prediction::ltp_prediction(ltp, f.buf + i + 2 - f.lag, b)
    } else {
        0
    }
}

// The harmonic noise term, where there is a lag.
fn harmonic(f: Fix, packed: i32, shp: &[i32; 640], i: usize, ltp_pred: i32) -> i32
    requires { Fits f × (i < f.subfr_length) }
    ensures { result ≡ harmonic_z f packed shp.now i ltp_pred }
{
    if 0 < f.lag {
        harmonic_terms::n_LTP(
            shp,
            4 * f.subfr_length + f.base + i + 1 - f.lag,
            packed,
            ltp_pred,
        )
    } else {
        0
    }
}

// What all paths share at sample i.
pub fn common(w: &Work, x: &[i16], v: Coefs<'_>, f: Fix, i: usize) -> Common
    requires { Fits f × ((i < f.subfr_length) × ((5 ≤ length v.b.now) × (f.base + f.subfr_length ≤ length x.now))) }
    ensures { result ≡ common_from f v.entry.half.HarmShapeFIRPacked_Q14 w.now.sLTP_shp_Q14 x.now i (predicted_z f v.entry.b.now w.now.sLTP_Q15 i) }
{
    let pred = predicted(f, v.b, &w.sLTP_Q15, i);
    let noise = harmonic(f, v.half.HarmShapeFIRPacked_Q14, &w.sLTP_shp_Q14, i, pred);
    let input = gains::x_sc_Q10(x[f.base + i], f.inv_gain_Q26);
    Common {
        x_Q10: input,
        LTP_pred_Q14: pred,
        n_LTP_Q14: noise,
    }
}
