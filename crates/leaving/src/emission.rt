// What leaves at the decision delay.
ghost use Rattle.std.specs.Prelude.{◌≡◌, ◌+◌, ◌-◌, ◌*◌, ◌<◌, ◌≤◌, length};
ghost use Rattle.noise.specs.Output.{pulse_of, xq_out};
ghost use Rattle.places.specs.Places.{Fits};
ghost use Rattle.steps.specs.Leaving.{leaves as leaves_z, emit as emit_z};

use noise::output;
use path::structs::{Fix, Sampled, Work};

// Whether a sample leaves at i.
fn leaves(f: Fix, i: usize) -> bool
    ensures { result ≡ leaves_z f i }
{
    !f.first || f.decisionDelay <= i
}

// What leaves at sample i, if anything does: the work row's word, the history sample with its gain g, the shaping word
// and the pulse.
pub fn emit(w: &mut Work, pulses: &mut [i8], f: Fix, i: usize, s: Sampled, g: i32)
    requires { Fits f × ((i < f.subfr_length) × (f.base + f.subfr_length ≤ length pulses.old)) }
    ensures work { w.new.sLTP_Q15 ≡ emit_z (leaves_z f i) w.old.sLTP_Q15 (f.buf + i - f.«decisionDelay») s.Pred_Q15 }
    ensures history { w.new.xq ≡ emit_z (leaves_z f i) w.old.xq (4 * f.subfr_length + (f.base + i - f.«decisionDelay»)) (xq_out s.Xq_Q14 g 8) }
    ensures shaping { w.new.sLTP_shp_Q14 ≡ emit_z (leaves_z f i) w.old.sLTP_shp_Q14 (4 * f.subfr_length + (f.base + i - f.«decisionDelay»)) s.Shape_Q14 }
    ensures pulse { pulses.new ≡ emit_z (leaves_z f i) pulses.old (f.base + i - f.«decisionDelay») (pulse_of s.Q_Q10) }
    ensures kept { ((w.new.states ≡ w.old.states) × (w.new.chosen ≡ w.old.chosen))
        × ((w.new.delayedGain_Q10 ≡ w.old.delayedGain_Q10) × (w.new.smpl_buf_idx ≡ w.old.smpl_buf_idx)) }
{
    let now = leaves(f, i);
    if now {
        let d = f.decisionDelay;
        let p = f.base + i - d;
        let at = 4 * f.subfr_length + p;
        w.sLTP_Q15[f.buf + i - d] = s.Pred_Q15;
        w.xq[at] = output::xq_out(s.Xq_Q14, g, 8);
        w.sLTP_shp_Q14[at] = s.Shape_Q14;
        pulses[p] = output::pulse_of(s.Q_Q10);
    }
}
