// One sample of a subframe: read what all paths share, take the sample, write what leaves.
ghost use Rattle.std.specs.Prelude.{◌≡◌, ◌<◌};
ghost use Rattle.steps.specs.Among.{full_copy};
ghost use Rattle.steps.specs.Carried.{chosen, carry_turn};
ghost use Rattle.places.specs.Places.{Fits};
ghost use Rattle.path.specs.Data.{running, rows_of_coefs};
ghost use Rattle.steps.specs.Lent.{Supplied};
ghost use Rattle.steps.specs.Turn.{turn as turn_z};

use crate::{common, each, sample};
use leaving::emission;
use path::structs::{Coefs, Fix, Work};
use places::ring;
use shifts::shift;

// Sample i of a subframe.
pub fn turn(w: &mut Work, pulses: &mut [i8], x: &[i16], v: Coefs<'_>, f: Fix, i: usize)
    requires { (Fits f × (w.old.smpl_buf_idx < 40)) × ((i < f.subfr_length) × Supplied f v x.now pulses.old) }
    ensures words { (running w.new pulses.new ≡ turn_z full_copy f (rows_of_coefs v.entry) x.now i (running w.old pulses.old))
        × (w.new.smpl_buf_idx < 40) }
    ensures chosen { w.new.chosen ≡ carry_turn chosen full_copy f (rows_of_coefs v.entry) x.now i (running w.old pulses.old) w.old.chosen }
{
    let r0 = w.smpl_buf_idx;
    let r = ring::down(r0);
    let last = (r + f.decisionDelay) % 40;
    let s = common::common(w, x, v, f, i);
    let t = sample::sample(&mut w.states, &mut w.chosen, v, f, s, i, r0, r, last);
    let g = w.delayedGain_Q10[last];
    emission::emit(w, pulses, f, i, t, g);
    each::noted(&mut w.chosen, &w.states.rings, f.nStates, r, f.base + i);
    w.delayedGain_Q10[r] = shift::shr32(f.Gain_Q16, 6);
    w.smpl_buf_idx = r;
}
