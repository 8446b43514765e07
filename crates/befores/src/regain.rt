// The change of gain before a subframe, where there is one.
ghost use Rattle.std.specs.Prelude.{◌≡◌, List, ℤ, pos, ◌≤ℤ◌};
ghost use Rattle.path.specs.Data.{running};
ghost use Rattle.places.specs.Places.{Fits};
ghost use Rattle.steps.specs.Frame.{regained as regained_z};

use gain_terms::gains;
use path::structs::{Fix, Work};
use scaling::scale;

// The paths, the work row and the shaping words at the subframe's gain; `prev` is the gain before.
pub fn regained(w: &mut Work, f: Fix, rewhitened: bool, prev: i32)
    requires { Fits f × ((pos 1 ≤ℤ prev) × (pos 1 ≤ℤ f.Gain_Q16)) }
    ensures words { (out : List ℤ) → running w.new out ≡ regained_z f rewhitened prev (running w.old out) }
    ensures kept { (w.new.chosen ≡ w.old.chosen) × (w.new.smpl_buf_idx ≡ w.old.smpl_buf_idx) }
{
    if f.Gain_Q16 != prev {
        let adj = gains::gain_adj_Q16(prev, f.Gain_Q16);
        scale::silk_nsq_del_dec_scale_states(w, f, rewhitened, adj);
    }
}
