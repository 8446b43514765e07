// One subframe: its rows are made, the two functions called, and all rows printed.
ghost use Rattle.std.specs.Prelude.{◌<◌};
ghost use Rattle.places.specs.Places.{Fits};

use crate::{digest, fits, rows, settings, words};
use gain_terms::gains;
use path::structs::{Coefs, Fix, States, Work};
use paths::subframe;
use scaling::scale;

// The work row of a rewhitened subframe.
fn rewhiten(ltp: &mut [i32; 640], f: Fix, c: usize, seed: i32)
    requires { Fits f × (c < 384) }
{
    let sltp = words::halves::<640>(seed, 8, settings::half_shift(c));
    let inv = gains::inv_gain_Q31(settings::gain(c));
    if settings::number(c) == 0 {
        let scaled = gains::ltp_scaled_inv_gain(inv, settings::ltp_scale(c, seed));
        scale::filled(ltp, &sltp, scaled, f.buf - f.lag - 2, f.lag + 2);
    } else {
        scale::filled(ltp, &sltp, inv, f.buf - f.lag - 2, f.lag + 2);
    }
}

// The change of gain, if there is one.
fn rescale(w: &mut Work, f: Fix, c: usize)
    requires { Fits f × ((c < 384) × (w.old.smpl_buf_idx < 40)) }
    ensures { w.new.smpl_buf_idx < 40 }
{
    let prev = settings::previous_gain(c);
    let gain = settings::gain(c);
    if gain != prev {
        let adj = gains::gain_adj_Q16(prev, gain);
        scale::silk_nsq_del_dec_scale_states(w, f, settings::rewhitened(c), adj);
    }
}

// What comes before the samples.
fn prepare(w: &mut Work, f: Fix, c: usize, seed: i32)
    requires { Fits f × ((c < 384) × (w.old.smpl_buf_idx < 40)) }
    ensures { w.new.smpl_buf_idx < 40 }
{
    if settings::rewhitened(c) {
        rewhiten(&mut w.sLTP_Q15, f, c, seed);
    }
    rescale(w, f, c);
}

// The samples.
fn quantise(w: &mut Work, pulses: &mut [i8; 320], f: Fix, c: usize, seed: i32)
    requires { Fits f × (w.old.smpl_buf_idx < 40) }
    ensures { w.new.smpl_buf_idx < 40 }
{
    let h = settings::half_shift(c);
    let x = words::halves::<320>(seed, 10, h);
    let a = words::halves::<24>(seed, 11, h);
    let b = words::halves::<24>(seed, 12, h);
    let ar = words::halves::<24>(seed, 13, h);
    let v = Coefs {
        a: &a,
        b: &b,
        ar: &ar,
        half: settings::halves(c, seed),
    };
    subframe::silk_noise_shape_quantizer_del_dec(w, pulses, &x, v, f);
}

// Subframe c.
pub fn replay(c: usize, seed: i32)
    requires { c < 384 }
{
    let inv = gains::inv_gain_Q31(settings::gain(c));
    let f = settings::fix(c, seed, gains::inv_gain_Q26(inv));
    if fits::fits(f) {
        run(c, seed, f);
    }
}

fn run(c: usize, seed: i32, f: Fix)
    requires { Fits f × (c < 384) }
{
    let s = settings::shift(c);
    let h = settings::half_shift(c);
    let twins = settings::twins(c);
    let states = States::of(
        rows::paths_of(c, seed),
        rows::lpc(seed, s, twins),
        rows::rings(seed, s, twins),
    );
    let mut w = Work::of(
        states,
        [[0; 320]; 4],
        words::words(seed, 7, s),
        words::words(seed, 9, s),
        c * 7 % 40,
        words::halves(seed, 5, h),
        words::words(seed, 6, s),
    );
    let mut pulses = [0; 320];
    prepare(&mut w, f, c, seed);
    quantise(&mut w, &mut pulses, f, c, seed);
    digest::print_paths(w.states.owns, w.smpl_buf_idx);
    digest::print_rows(f.subfr_length, &w, &pulses);
}
