// Refusal 5: by the lengths of the rows.
ghost use Rattle.std.specs.Prelude.{◌≡◌, ℕ};
ghost use Rattle.refusal_rules.specs.Table.{each_refused, rows_refused};

use limits::count;
use refusal_rules::answer::Sizes;

// The rows that have one word for each subframe.
fn each_refused(n: usize, z: Sizes, gains: usize, lags: usize) -> bool
    ensures { result ≡ each_refused n z gains lags }
{
    [z.harm_gain, z.tilt, z.lf, gains, lags]
        .iter()
        .any(|words| *words != n)
}

// 5: a row has another length. A product of two counts of 31 bits fits, so the settings need not have been tested before.
pub fn rows_refused(l: i32, n: i32, z: Sizes, gains: usize, lags: usize) -> bool
    ensures { result ≡ rows_refused l n z gains lags }
{
    let subframes = count::count(n);
    let frame = subframes * count::count(l);
    z.samples != frame
        || z.pred_coef != 32
        || z.ltp_coef != 5 * subframes
        || z.ar != 24 * subframes
        || z.pulses != frame
        || each_refused(subframes, z, gains, lags)
}
