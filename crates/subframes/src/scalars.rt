// The scalars of each subframe, read off a call: its lag, where it stands, its gains.
ghost use Rattle.std.specs.Prelude.{◌≡◌, ◌≤◌, ◌<◌, length};
ghost use Rattle.steps.specs.Call.{lag_by, twice_by, second_by, rewhites_by, since_by, row_by, fix_by, halves_by, white_by};

use gain_terms::gains;
use harmonic::terms;
use limits::count;
use path::structs::{Fix, Halves};
use steps::structs::Given;

// The lag of subframe k.
pub fn lag_of(g: Given, lags: &[i32], k: usize) -> usize
    requires { k < length lags.now }
    ensures { result ≡ lag_by g lags.now k }
{
    if g.voiced {
        let lag = lags[k];
        count::count(lag)
    } else {
        g.lagPrev
    }
}

// Whether the frame's second half is rewhitened too.
fn twice(g: Given) -> bool
    ensures { result ≡ twice_by g }
{
    g.voiced && g.interpolated
}

// Whether subframe k is the second one to be rewhitened, with the flush before it.
pub fn second(g: Given, k: usize) -> bool
    ensures { result ≡ second_by g k }
{
    twice(g) && k == 2
}

// Whether subframe k is rewhitened.
pub fn rewhites(g: Given, k: usize) -> bool
    ensures { result ≡ rewhites_by g k }
{
    if k == 0 { g.voiced } else { second(g, k) }
}

// Subframes since output was last held back: the Rust's `subfr`.
pub fn since(g: Given, k: usize) -> usize
    ensures { result ≡ since_by g k }
{
    if twice(g) && 2 <= k { k - 2 } else { k }
}

// Which row of prediction coefficients.
pub fn row_of(g: Given, k: usize) -> usize
    ensures { result ≡ row_by g k }
{
    if g.interpolated { k / 2 } else { 1 }
}

// The scalars of subframe k.
pub fn fix_of(g: Given, lags: &[i32], lf: &[i32], gains: &[i32], k: usize) -> Fix
    requires { (k < 4) × ((g.subfr_length ≤ 80) × ((k < length lags.now) × ((k < length lf.now) × (k < length gains.now)))) }
    ensures { result ≡ fix_by g lags.now lf.now gains.now k }
{
    let lag = lag_of(g, lags, k);
    let shp = lf[k];
    let gain = gains[k];
    let inv26 = gains::inv_gain_Q26(gains::inv_gain_Q31(gain));
    let subfr = since(g, k);
    Fix {
        subfr_length: g.subfr_length,
        predictLPCOrder: g.predictLPCOrder,
        shapingLPCOrder: g.shapingLPCOrder,
        nStates: g.nStates,
        voiced: g.voiced,
        offset_Q10: g.offset_Q10,
        Lambda_Q10: g.Lambda_Q10,
        lag,
        LF_shp_Q14: shp,
        Gain_Q16: gain,
        inv_gain_Q26: inv26,
        decisionDelay: g.delay,
        base: k * g.subfr_length,
        buf: 4 * g.subfr_length + subfr * g.subfr_length,
        first: subfr == 0,
    }
}

// The words of subframe k of which a half is read.
pub fn halves_of(g: Given, tilt: &[i32], harm: &[i32], k: usize) -> Halves
    requires { (k < length tilt.now) × (k < length harm.now) }
    ensures { result ≡ halves_by g tilt.now harm.now k }
{
    let t = tilt[k];
    let h = harm[k];
    Halves {
        warping_Q16: g.warping_Q16,
        Tilt_Q14: t,
        HarmShapeFIRPacked_Q14: terms::harm_shape_packed(h),
    }
}

// What a rewhitened work row of subframe k is multiplied by.
pub fn white_gain(g: Given, gain: i32, k: usize) -> i32
    ensures { result ≡ white_by g gain k }
{
    let inv31 = gains::inv_gain_Q31(gain);
    if k == 0 {
        gains::ltp_scaled_inv_gain(inv31, g.LTP_scale_Q14)
    } else {
        inv31
    }
}
