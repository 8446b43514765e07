// All subframes of a frame.
ghost use Rattle.std.specs.Prelude.{◌≡◌, ◌*◌, ◌<◌, ◌≤◌, length, pos, ◌≤ℤ◌};
ghost use Rattle.steps.specs.Among.{full_copy};
ghost use Rattle.steps.specs.Call.{Sound};
ghost use Rattle.steps.specs.Carried.{chosen};
ghost use Rattle.steps.specs.Lent.{framed_at, Stocked_in, run_in, carried_on};

use frame::turn;
use path::structs::Frame;
use steps::structs::{Given, Inputs};

// One after the other.
pub fn run(t: &mut Frame, pulses: &mut [i8], r: Inputs<'_>, g: Given)
    requires { ((Sound g r.lags.now × Stocked_in g r) × (g.nb_subfr * g.subfr_length ≤ length pulses.old))
        × ((pos 1 ≤ℤ t.old.prev) × (t.old.work.smpl_buf_idx < 40)) }
    ensures words { (framed_at t.new pulses.new ≡ run_in full_copy g r.entry g.nb_subfr (framed_at t.old pulses.old))
        × (t.new.work.smpl_buf_idx < 40) }
    ensures chosen { t.new.work.chosen
        ≡ carried_on chosen full_copy g r.entry g.nb_subfr (framed_at t.old pulses.old) t.old.work.chosen }
{
    for k in 0..g.nb_subfr {
        turn::turn(t, pulses, r, g, k);
    }
}
