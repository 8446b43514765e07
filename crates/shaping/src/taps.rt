// A run of taps, which both predictions are made of.
ghost use Rattle.std.specs.Prelude.{◌≡◌, ◌+◌, ◌≤◌, ◌<◌, length};
ghost use Rattle.shaping.specs.Taps.{taps_from};

use products::product;

// `count` taps from tap `from` on, added to `start`. Every call has a constant count, so that the compiler writes the
// taps out, as the Rust does by hand: measured, that takes two thirds of the time of a loop over the order. By an index: the row is read backwards,
// the coefficients forwards.
pub fn taps(row: &[i32], at: usize, coef: &[i16], from: usize, count: usize, start: i32) -> i32
    requires { (from + count ≤ at + 1) × (at < length row.now) × (from + count ≤ length coef.now) }
    ensures { result ≡ taps_from row.now at coef.now from count start }
{
    let mut sum = start;
    for k in 0..count {
        sum = product::smlawb(sum, row[at - (from + k)], coef[from + k]);
    }
    sum
}
