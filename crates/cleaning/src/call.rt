// A call cleaned.
ghost use Rattle.std.specs.Prelude.{◌≡◌, List, ℤ};
ghost use Rattle.silk.specs.declared.structs.NsqState.{NsqState};
ghost use Rattle.steps.specs.Call.{call_of};
ghost use Rattle.cleaning.specs.Cleaned.{cleaned};

use crate::rows;
use silk::structs::Settings;

// A call's settings and rows with every number cleared that doesn't count: the rows in place, the settings handed back. The samples, the LFs and the
// gains count whole, and of the state only lagPrev is looked at; so the contract speaks of every state with that lagPrev. The rows
// are parameters: whoever holds them lends them, without a sheet.
pub fn clean(
    s: Settings,
    lagPrev: i32,
    pred: &mut [i16],
    long: &mut [i16],
    ar: &mut [i16],
    harm: &mut [i32],
    tilt: &mut [i32],
    lags: &mut [i32],
) -> Settings
    ensures { (state : NsqState) (lf gains : List ℤ) → state.lagPrev ≡ lagPrev
        → call_of result state pred.new long.new ar.new harm.new tilt.new lf gains lags.new
        ≡ cleaned (call_of s state pred.old long.old ar.old harm.old tilt.old lf gains lags.old) }
{
    rows::pred(pred, s);
    rows::ltp(long, s);
    rows::ar(ar, s);
    rows::harm(harm, s, lagPrev);
    rows::tilt(tilt);
    rows::lags(lags, s);
    rows::settings(s)
}
