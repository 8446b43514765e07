// All that comes before the samples of a subframe.
ghost use Rattle.std.specs.Prelude.{◌≡◌, ◌*◌, ◌<◌, ◌≤◌, length, pos, ◌≤ℤ◌};
ghost use Rattle.path.specs.Data.{running};
ghost use Rattle.places.specs.Places.{Fits};
ghost use Rattle.steps.specs.Call.{Room};
ghost use Rattle.steps.specs.Frame.{whitened_of, before as before_z};

use crate::{middle, regain, white};
use path::structs::{Fix, Frame};
use steps::structs::Prior;

// The flush and the rewhitening where they apply, then the change of gain.
pub fn before(t: &mut Frame, pulses: &mut [i8], a: &[i16], f: Fix, p: Prior)
    requires { ((Fits f × Room f) × ((pos 1 ≤ℤ t.old.prev) × (pos 1 ≤ℤ f.Gain_Q16)))
        × (((f.decisionDelay ≤ 2 * f.subfr_length) × (2 * f.subfr_length ≤ length pulses.old))
        × ((t.old.work.smpl_buf_idx < 40) × (f.predictLPCOrder ≤ length a.now))) }
    ensures words { whitened_of (running t.new.work pulses.new) t.new.sLTP
        ≡ before_z p.again p.rewhite f a.now p.gain1 p.inv t.old.prev (running t.old.work pulses.old) t.old.sLTP }
    ensures kept { (t.new.prev ≡ t.old.prev)
        × ((t.new.work.chosen ≡ t.old.work.chosen) × (t.new.work.smpl_buf_idx ≡ t.old.work.smpl_buf_idx)) }
{
    let prev = t.prev;
    middle::flushed_first(p.again, &mut t.work, pulses, f, p.gain1);
    white::whitened_first(
        p.rewhite,
        &mut t.work.sLTP_Q15,
        &mut t.sLTP,
        &t.work.xq,
        a,
        f,
        p.inv,
    );
    regain::regained(&mut t.work, f, p.rewhite, prev);
}
