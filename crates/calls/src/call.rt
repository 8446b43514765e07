// What the frame reads off a call, once: its settings as counts, and the decision delay.
ghost use Rattle.std.specs.Prelude.{◌≡◌, ◌≤◌, ◌<◌, min, length};
ghost use Rattle.limits.specs.Count.{nat_z};
ghost use Rattle.steps.specs.Call.{voiced_by, interpolated_by, lowered as lowered_n, voiced_delay, quiet_delay, delay_by, given_by};

use limits::count;
use residuals::offset;
use silk::structs::Settings;
use steps::structs::Given;

// Signal type 2 is voiced.
fn voiced_by(kind: i32) -> bool
    ensures { result ≡ voiced_by kind }
{
    kind == 2
}

// An interpolation coefficient of 4 is none.
fn interpolated_by(interp: i32) -> bool
    ensures { result ≡ interpolated_by interp }
{
    interp != 4
}

// The delay, lowered to lag - 3.
fn lowered(d: usize, lag: usize) -> usize
    ensures { result ≡ lowered_n d lag }
{
    d.min(lag.saturating_sub(3))
}

// The delay before the lags lower it.
fn most_delay(l: usize) -> usize
    ensures { result ≡ min 40 l }
{
    l.min(40)
}

// The delay of a voiced frame, by each of its lags.
fn voiced_delay(l: usize, n: usize, lags: &[i32]) -> usize
    requires { n ≤ length lags.now }
    ensures { result ≡ voiced_delay l n lags.now }
{
    let mut d = most_delay(l);
    for lag in &lags[..n] {
        d = lowered(d, count::count(*lag));
    }
    d
}

// The delay of another frame.
fn quiet_delay(l: usize, lagPrev: usize) -> usize
    ensures { result ≡ quiet_delay l lagPrev }
{
    let d = most_delay(l);
    if 0 < lagPrev { lowered(d, lagPrev) } else { d }
}

// The decision delay.
fn delay(voiced: bool, l: usize, n: usize, lagPrev: usize, lags: &[i32]) -> usize
    requires { n ≤ length lags.now }
    ensures { result ≡ delay_by voiced l n lagPrev lags.now }
{
    if voiced {
        voiced_delay(l, n, lags)
    } else {
        quiet_delay(l, lagPrev)
    }
}

// The settings as counts. Only of an accepted call: the types are then places of the table of offsets.
pub fn given_of(s: Settings, lagPrev: i32, lags: &[i32]) -> Given
    requires { (nat_z s.signalType ≤ 2) × ((nat_z s.quantOffsetType ≤ 1) × (nat_z s.nb_subfr ≤ length lags.now)) }
    ensures { result ≡ given_by s lagPrev lags.now }
{
    let l = count::count(s.subfr_length);
    let n = count::count(s.nb_subfr);
    let prev = count::count(lagPrev);
    let voiced = voiced_by(s.signalType);
    let d = delay(voiced, l, n, prev, lags);
    let offset = offset::quant_offset(count::count(s.signalType), count::count(s.quantOffsetType));
    Given {
        subfr_length: l,
        nb_subfr: n,
        predictLPCOrder: count::count(s.predictLPCOrder),
        shapingLPCOrder: count::count(s.shapingLPCOrder),
        nStates: count::count(s.nStatesDelayedDecision),
        voiced,
        interpolated: interpolated_by(s.NLSFInterpCoef_Q2),
        offset_Q10: offset,
        Lambda_Q10: s.Lambda_Q10,
        LTP_scale_Q14: s.LTP_scale_Q14,
        warping_Q16: s.warping_Q16,
        seed: count::count(s.Seed),
        lagPrev: prev,
        delay: d,
    }
}
