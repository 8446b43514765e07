// A whole subframe: `silk_noise_shape_quantizer_del_dec`.
ghost use Rattle.std.specs.Prelude.{◌≡◌, ◌<◌, ◌≤◌};
ghost use Rattle.steps.specs.Among.{full_copy};
ghost use Rattle.steps.specs.Carried.{chosen, carried_in};
ghost use Rattle.path.specs.Data.{running, rows_of_coefs};
ghost use Rattle.steps.specs.Lent.{Supplied};
ghost use Rattle.steps.specs.Subframe.{backed, backs as backs_z, subframe as subframe_z};
ghost use Rattle.places.specs.Places.{Fits};

use crate::turn;
use path::structs::{Coefs, Fix, Work};

// The last 16 LPC words of a path, behind l samples, move to the front.
fn moved_back(w: &mut [i32; 96], l: usize)
    requires { l ≤ 80 }
    ensures { w.new ≡ backed l w.old }
{
    w.copy_within(l..l + 16, 0);
}

// The same of n paths, by k as in the definition: the first n of four count.
fn backs(lpc: &mut [[i32; 96]; 4], l: usize, n: usize)
    requires { (l ≤ 80) × (n ≤ 4) }
    ensures { lpc.new ≡ backs_z l n lpc.old }
{
    for k in 0..n {
        moved_back(&mut lpc[k], l);
    }
}

// The samples of a subframe, and then the LPC words back to the front.
pub fn silk_noise_shape_quantizer_del_dec(
    w: &mut Work,
    pulses: &mut [i8],
    x: &[i16],
    v: Coefs<'_>,
    f: Fix,
)
    requires { (Fits f × (w.old.smpl_buf_idx < 40)) × Supplied f v x.now pulses.old }
    ensures words { (running w.new pulses.new ≡ subframe_z full_copy f (rows_of_coefs v.entry) x.now (running w.old pulses.old))
        × (w.new.smpl_buf_idx < 40) }
    ensures chosen { w.new.chosen
        ≡ carried_in chosen full_copy f (rows_of_coefs v.entry) x.now (running w.old pulses.old) f.subfr_length w.old.chosen }
{
    for i in 0..f.subfr_length {
        turn::turn(w, pulses, x, v, f, i);
    }
    backs(&mut w.states.lpcs, f.subfr_length, f.nStates);
}
