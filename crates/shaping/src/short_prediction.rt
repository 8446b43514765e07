// The short-term prediction of a sample from the words before it.
ghost use Rattle.std.specs.Prelude.{◌≡◌, ◌≤◌, ◌<◌, length};
ghost use Rattle.shaping.specs.Taps.{short_prediction};

use crate::{start, taps};

// The Rust's buf32 is `buf` from the word `at` on, read backwards: tap j takes the word at - j.
pub fn silk_noise_shape_quantizer_short_prediction(
    buf: &[i32; 96],
    at: usize,
    coef: &[i16],
    order: usize,
) -> i32
    requires { (15 ≤ at) × (at < 96) × (16 ≤ length coef.now) × (order ≤ 16) }
    ensures { result ≡ short_prediction buf.now at coef.now order }
{
    let start = start::half_order(order);
    let ten = taps::taps(buf, at, coef, 0, 10, start);
    if order == 16 {
        taps::taps(buf, at, coef, 10, 6, ten)
    } else {
        ten
    }
}
