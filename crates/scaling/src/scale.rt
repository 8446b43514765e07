// The change of gain before a subframe: `silk_nsq_del_dec_scale_states`.
ghost use Rattle.std.specs.Prelude.{◌≡◌, ◌+◌, ◌≤◌, List, ℤ};
ghost use Rattle.path.specs.Data.{paths_of, running};
ghost use Rattle.places.specs.Places.{Fits};
ghost use Rattle.path.specs.Scaled.{scaled_words};
ghost use Rattle.steps.specs.Scale.{filled as filled_z, scaled_paths, scaled_work, scaled as scaled_z};

use path::scaled;
use path::structs::{Fix, States, Work};
use products::product;

// The words a .. a + m of the work row from those of the filtered history, each times the inverse gain. By an index, as the definition goes: two rows
// from one place on.
pub fn filled(row: &mut [i32; 640], sltp: &[i16; 640], inv: i32, a: usize, m: usize)
    requires { a + m ≤ 640 }
    ensures { row.new ≡ filled_z inv sltp.now a m row.old }
{
    for j in 0..m {
        row[a + j] = product::smulwb(inv, sltp[a + j]);
    }
}

// All n paths. By k, as three rows go together, of which the first n count.
fn scaled_paths(ps: &mut States, adj: i32, n: usize)
    requires { n ≤ 4 }
    ensures { paths_of ps.new ≡ scaled_paths adj n (paths_of ps.old) }
{
    for k in 0..n {
        let p = ps.owns[k];
        ps.owns[k] = p.scaled(&mut ps.lpcs[k], &mut ps.rings[k], adj);
    }
}

// The work row, where the Rust scales it.
fn scaled_work(ltp: &mut [i32; 640], f: Fix, rewhitened: bool, adj: i32)
    requires { Fits f }
    ensures { ltp.new ≡ scaled_work f rewhitened adj ltp.old }
{
    if f.voiced && !rewhitened {
        let a = f.buf - f.lag - 2;
        scaled::scaled_words(ltp, adj, a, f.buf - f.decisionDelay - a);
    }
}

// The paths, the shaping words and the work row, scaled by the change of gain.
pub fn silk_nsq_del_dec_scale_states(w: &mut Work, f: Fix, rewhitened: bool, adj: i32)
    requires { Fits f }
    ensures words { (out : List ℤ) → running w.new out ≡ scaled_z f rewhitened adj (running w.old out) }
    ensures kept { (w.new.chosen ≡ w.old.chosen) × (w.new.smpl_buf_idx ≡ w.old.smpl_buf_idx) }
{
    scaled::scaled_words(&mut w.sLTP_shp_Q14, adj, f.base, 4 * f.subfr_length);
    scaled_work(&mut w.sLTP_Q15, f, rewhitened, adj);
    scaled_paths(&mut w.states, adj, f.nStates);
}
