// The long-term prediction of a voiced sample, from five words of the work row around the lag.
ghost use Rattle.std.specs.Prelude.{◌≡◌, ◌≤◌, ◌<◌, length};
ghost use Rattle.shaping.specs.Taps.{long_prediction};

use crate::taps;
use shifts::shift;

// The Rust's pred_lag_ptr is `row` from the word `at` on, read backwards.
pub fn ltp_prediction(row: &[i32; 640], at: usize, b: &[i16]) -> i32
    requires { (4 ≤ at) × (at < 640) × (5 ≤ length b.now) }
    ensures { result ≡ long_prediction row.now at b.now }
{
    shift::shl32(taps::taps(row, at, b, 0, 5, 2), 1)
}
