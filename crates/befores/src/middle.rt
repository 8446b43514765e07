// The flush before the second rewhitening.
ghost use Rattle.std.specs.Prelude.{◌≡◌, ◌+◌, ◌*◌, ◌<◌, ◌≤◌, length};
ghost use Rattle.path.specs.Data.{running};
ghost use Rattle.places.specs.Places.{Fits};
ghost use Rattle.steps.specs.Frame.{middle_by, flushed_first};

use edges::ends;
use edges::ends::Fit;
use path::structs::{Fix, Work};

// The winner's last d samples handed out after 2 * l samples, by the gain of subframe 1; every other path gets the penalty.
fn middle(w: &mut Work, pulses: &mut [i8], n: usize, l: usize, d: usize, gain: i32)
    requires { (((0 < n) × (n ≤ 4)) × ((d ≤ 2 * l) × (4 * l + 2 * l ≤ 640))) × ((2 * l ≤ length pulses.old) × (w.old.smpl_buf_idx < 40)) }
    ensures words { running w.new pulses.new ≡ middle_by n l d gain (running w.old pulses.old) }
    ensures kept { (w.new.chosen ≡ w.old.chosen) × (w.new.smpl_buf_idx ≡ w.old.smpl_buf_idx) }
{
    let win = ends::best(w.states.owns, n);
    ends::flushed(
        &mut w.xq,
        &mut w.sLTP_shp_Q14,
        pulses,
        &w.states.rings[win],
        Fit::Middle(gain),
        4 * l,
        d,
        2 * l,
        w.smpl_buf_idx,
    );
    ends::others_raised(&mut w.states.owns, win, n);
}

// The flush, if this is the second rewhitening.
pub fn flushed_first(again: bool, w: &mut Work, pulses: &mut [i8], f: Fix, gain1: i32)
    requires { (Fits f × (f.decisionDelay ≤ 2 * f.subfr_length)) × ((2 * f.subfr_length ≤ length pulses.old) × (w.old.smpl_buf_idx < 40)) }
    ensures words { running w.new pulses.new ≡ flushed_first again f gain1 (running w.old pulses.old) }
    ensures kept { (w.new.chosen ≡ w.old.chosen) × (w.new.smpl_buf_idx ≡ w.old.smpl_buf_idx) }
{
    if again {
        middle(w, pulses, f.nStates, f.subfr_length, f.decisionDelay, gain1);
    }
}
