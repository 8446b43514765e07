// One subframe of a frame.
ghost use Rattle.std.specs.Prelude.{◌≡◌, ◌*◌, ◌<◌, ◌≤◌, length, pos, ◌≤ℤ◌};
ghost use Rattle.path.specs.Data.{rows_of_coefs};
ghost use Rattle.places.specs.Places.{Fits};
ghost use Rattle.steps.specs.Among.{full_copy};
ghost use Rattle.steps.specs.Call.{Room};
ghost use Rattle.steps.specs.Carried.{chosen, carry_step};
ghost use Rattle.steps.specs.Frame.{step_by};
ghost use Rattle.steps.specs.Lent.{framed_at, Supplied};

use befores::before;
use path::structs::{Coefs, Fix, Frame};
use paths::subframe::silk_noise_shape_quantizer_del_dec as samples;
use steps::structs::Prior;

// A subframe, from the flush before it to its last sample.
pub fn step(t: &mut Frame, pulses: &mut [i8], x: &[i16], v: Coefs<'_>, f: Fix, p: Prior)
    requires { ((Fits f × Room f) × ((pos 1 ≤ℤ t.old.prev) × (pos 1 ≤ℤ f.Gain_Q16)))
        × ((((f.decisionDelay ≤ 2 * f.subfr_length) × (2 * f.subfr_length ≤ length pulses.old)) × (t.old.work.smpl_buf_idx < 40))
        × Supplied f v x.now pulses.old) }
    ensures words { (framed_at t.new pulses.new
        ≡ step_by full_copy f (rows_of_coefs v.entry) x.now p (framed_at t.old pulses.old))
        × ((t.new.prev ≡ f.Gain_Q16) × (t.new.work.smpl_buf_idx < 40)) }
    ensures chosen { t.new.work.chosen
        ≡ carry_step chosen full_copy f (rows_of_coefs v.entry) x.now p (framed_at t.old pulses.old) t.old.work.chosen }
{
    before::before(t, pulses, v.a, f, p);
    samples(&mut t.work, pulses, x, v, f);
    t.prev = f.Gain_Q16;
}
