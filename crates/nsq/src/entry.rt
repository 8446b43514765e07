// The call: the refusals of docs/RULES.md, then the frame.
ghost use Rattle.std.specs.Prelude.{◌≡◌, List, ℤ, pos};
ghost use Rattle.steps.specs.Among.{keeps_first};
ghost use Rattle.steps.specs.Call.{call_of};
ghost use Rattle.steps.specs.Lent.{call_at};
ghost use Rattle.steps.specs.Sizes.{sizes_of};
ghost use Rattle.silk.specs.declared.structs.Settings.{Settings};
ghost use Rattle.silk.specs.declared.structs.NsqState.{NsqState};
ghost use Rattle.steps.specs.Entry.{outcome, handed, reported};
ghost use Rattle.steps.specs.Report.{report};

use coding::accepted;
use refusal_rules::answer::Sizes;
use refusals::check;
use silk::structs::{NsqState, Settings};
use steps::structs::{Coded, Inputs, Refused};

// How long the rows of a call are, one by one as the entry is lent them.
fn sizes(
    x: &[i16],
    pulses: &[i8],
    pred: &[i16],
    long: &[i16],
    ar: &[i16],
    harm: &[i32],
    tilt: &[i32],
    lf: &[i32],
) -> Sizes
    ensures { (s : Settings) (state : NsqState) (gains lags : List ℤ)
        → result ≡ sizes_of (call_of s state pred.now long.now ar.now harm.now tilt.now lf.now gains lags)
        x.now pulses.now }
{
    Sizes {
        samples: x.len(),
        pred_coef: pred.len(),
        ltp_coef: long.len(),
        ar: ar.len(),
        harm_gain: harm.len(),
        tilt: tilt.len(),
        lf: lf.len(),
        pulses: pulses.len(),
    }
}

// `silk_NSQ_del_dec_c`. Whatever it is given: accepted, the next seed and state and the report come back; or why it is refused, with the seed
// and the state given, and then no pulse is touched. The rows are parameters of their own, as the interface for C lends them.
pub fn silk_NSQ_del_dec(
    s: Settings,
    state: NsqState,
    x: &[i16],
    pulses: &mut [i8],
    pred: &[i16],
    long: &[i16],
    ar: &[i16],
    harm: &[i32],
    tilt: &[i32],
    lf: &[i32],
    gains: &[i32],
    lags: &[i32],
) -> Result<Coded, Refused>
    ensures outcome { handed result pulses.new
        ≡ outcome keeps_first (call_at s state pred.now long.now ar.now harm.now tilt.now lf.now gains.now lags.now) x.now pulses.old }
    ensures report { reported result
        ≡ pos (report keeps_first (call_at s state pred.now long.now ar.now harm.now tilt.now lf.now gains.now lags.now) x.now pulses.old) }
{
    let z = sizes(x, pulses, pred, long, ar, harm, tilt, lf);
    match check::check(s, z, state.lagPrev, state.prev_gain_Q16, gains, lags) {
        Ok(()) => {
            let rows = Inputs {
                x,
                pred,
                long,
                ar,
                tilt,
                harm,
                lf,
                gains,
                lags,
            };
            let r = accepted::coded(s, state, rows, pulses);
            Ok(Coded {
                seed: r.seed,
                state: r.state,
                report: r.report,
            })
        }
        Err(why) => Err(Refused {
            why,
            seed: s.Seed,
            state,
        }),
    }
}
