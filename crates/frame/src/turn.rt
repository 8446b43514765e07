// Subframe k of a frame: what it works with is read off the call, then it is coded.
ghost use Rattle.std.specs.Prelude.{◌≡◌, ◌+◌, ◌*◌, ◌<◌, ◌≤◌, length, take, drop, pos, ◌≤ℤ◌};
ghost use Rattle.path.specs.Data.{rows, rows_of_coefs};
ghost use Rattle.steps.specs.Among.{full_copy};
ghost use Rattle.steps.specs.Call.{Sound};
ghost use Rattle.steps.specs.Carried.{chosen};
ghost use Rattle.steps.specs.Frame.{prior_by};
ghost use Rattle.steps.specs.Lent.{framed_at, Stocked_in, turn_in, carry_in};

use crate::step;
use path::structs::{Coefs, Frame, Halves};
use steps::structs::{Given, Inputs, Prior};
use subframes::scalars;

// What comes before the samples of subframe k.
fn prior_of(g: Given, gains: &[i32], k: usize) -> Prior
    requires { (1 < length gains.now) × (k < length gains.now) }
    ensures { result ≡ prior_by g gains.now k }
{
    let gain1 = gains[1];
    let gain = gains[k];
    Prior {
        again: scalars::second(g, k),
        gain1,
        rewhite: scalars::rewhites(g, k),
        inv: scalars::white_gain(g, gain, k),
    }
}

// The coefficients of subframe k: 16 words of prediction `from` a place on, 5 and 24 of its own, and its halves.
fn coefs_at<'a>(r: Inputs<'a>, half: Halves, from: usize, k: usize) -> Coefs<'a>
    requires { ((from + 16 ≤ length r.pred.now) × (k * 5 + 5 ≤ length r.long.now)) × ((k * 24 + 24 ≤ length r.ar.now) × (k < 4)) }
    ensures rows { rows_of_coefs result
        ≡ rows (take 16 (drop from r.entry.pred.now)) (take 5 (drop (k * 5) r.entry.long.now)) (take 24 (drop (k * 24) r.entry.ar.now)) half }
    ensures enough { (16 ≤ length result.a.now) × ((5 ≤ length result.b.now) × (24 ≤ length result.ar.now)) }
{
    let five = k * 5;
    let shape = k * 24;
    Coefs {
        a: &r.pred[from..from + 16],
        b: &r.long[five..five + 5],
        ar: &r.ar[shape..shape + 24],
        half,
    }
}

// Subframe k.
pub fn turn(t: &mut Frame, pulses: &mut [i8], r: Inputs<'_>, g: Given, k: usize)
    requires { ((Sound g r.lags.now × Stocked_in g r)
        × ((k < g.nb_subfr) × (g.nb_subfr * g.subfr_length ≤ length pulses.old)))
        × ((pos 1 ≤ℤ t.old.prev) × (t.old.work.smpl_buf_idx < 40)) }
    ensures words { (framed_at t.new pulses.new ≡ turn_in full_copy g r.entry k (framed_at t.old pulses.old))
        × ((pos 1 ≤ℤ t.new.prev) × (t.new.work.smpl_buf_idx < 40)) }
    ensures chosen { t.new.work.chosen ≡ carry_in chosen full_copy g r.entry k (framed_at t.old pulses.old) t.old.work.chosen }
{
    let f = scalars::fix_of(g, r.lags, r.lf, r.gains, k);
    let p = prior_of(g, r.gains, k);
    let half = scalars::halves_of(g, r.tilt, r.harm, k);
    let from = scalars::row_of(g, k) * 16;
    let v = coefs_at(r, half, from, k);
    step::step(t, pulses, r.x, v, f, p);
}
