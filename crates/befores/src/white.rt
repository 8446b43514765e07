// The rewhitening of a voiced subframe: the filtered history, and the work row filled from it.
ghost use Rattle.std.specs.Prelude.{◌≡◌, ◌+◌, ◌-◌, ◌*◌, ◌<◌, ◌≤◌, length};
ghost use Rattle.fixed.specs.Iter.{either};
ghost use Rattle.steps.specs.Scale.{filled};
ghost use Rattle.places.specs.Places.{Fits};
ghost use Rattle.steps.specs.Call.{Room};
ghost use Rattle.steps.specs.Frame.{rewhitened as rewhitened_z, rewhitened_at};

use analysis::lpc_analysis_filter;
use path::structs::Fix;
use scaling::scale;

// The history from `from` on, m words, filtered into the row from `start` on; the words before stay.
fn rewhitened(
    row: &mut [i16; 640],
    xq: &[i16],
    a: &[i16],
    order: usize,
    start: usize,
    from: usize,
    m: usize,
)
    requires { ((start + m ≤ 640) × (from + m ≤ length xq.now)) × ((order ≤ m) × (order ≤ length a.now)) }
    ensures { row.new ≡ rewhitened_z row.old xq.now a.now order start from m }
{
    let end = from + m;
    lpc_analysis_filter::silk_LPC_analysis_filter(&mut row[start..], &xq[from..end], a, order);
}

// The rewhitening of a subframe: the filtered history, and the work row filled from it, times inv.
pub fn whitened(
    ltp: &mut [i32; 640],
    sltp: &mut [i16; 640],
    xq: &[i16],
    a: &[i16],
    f: Fix,
    inv: i32,
)
    requires { (Fits f × Room f) × ((f.predictLPCOrder ≤ length a.now) × (640 ≤ length xq.now)) }
    ensures row { sltp.new ≡ rewhitened_at f a.now xq.now sltp.old }
    ensures work { ltp.new ≡ filled inv (rewhitened_at f a.now xq.now sltp.old) (4 * f.subfr_length - f.lag - 2) (f.lag + 2) ltp.old }
{
    let end = 4 * f.subfr_length;
    let order = f.predictLPCOrder;
    let first = end - f.lag - 2;
    let start = first - order;
    let from = start + f.base;
    rewhitened(sltp, xq, a, order, start, from, end - start);
    scale::filled(ltp, sltp, inv, first, f.lag + 2);
}

// The rewhitening, if there is one.
pub fn whitened_first(
    rewhite: bool,
    ltp: &mut [i32; 640],
    sltp: &mut [i16; 640],
    xq: &[i16],
    a: &[i16],
    f: Fix,
    inv: i32,
)
    requires { (Fits f × Room f) × ((f.predictLPCOrder ≤ length a.now) × (640 ≤ length xq.now)) }
    ensures row { sltp.new ≡ either rewhite (rewhitened_at f a.now xq.now sltp.old) sltp.old }
    ensures work { ltp.new ≡ either rewhite (filled inv (rewhitened_at f a.now xq.now sltp.old) (4 * f.subfr_length - f.lag - 2) (f.lag + 2) ltp.old) ltp.old }
{
    if rewhite {
        whitened(ltp, sltp, xq, a, f, inv);
    }
}
