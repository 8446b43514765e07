// The analysis filter: what is left of each input once its prediction from those before it is taken away.
ghost use Rattle.std.specs.Prelude.{◌≡◌, ◌≤◌, ◌<◌, length};
ghost use Rattle.word_steps.specs.Filter.{prediction as prediction_z, filtered as filtered_z, analysis};

use fixed::wrap;
use products::product;
use shifts::{range, shift};

// The prediction of the input at `ix` by the `order` inputs before it. By index, as in the Rust: the two rows run against each other.
fn prediction(input: &[i16], b: &[i16], order: usize, ix: usize) -> i32
    requires { (ix < length input.now) × (order ≤ ix) × (order ≤ length b.now) }
    ensures { result ≡ prediction_z input.now b.now order ix }
{
    let mut out32_Q12 = 0;
    for j in 0..order {
        out32_Q12 = wrap::add32(out32_Q12, product::mul16(input[ix - 1 - j], b[j]));
    }
    out32_Q12
}

// The output at `ix`.
fn filtered(input: &[i16], b: &[i16], order: usize, ix: usize) -> i16
    requires { (ix < length input.now) × (order ≤ ix) × (order ≤ length b.now) }
    ensures { result ≡ filtered_z input.now b.now order ix }
{
    let out32_Q12 = prediction(input, b, order, ix);
    let left = wrap::sub32(shift::shl32(input[ix] as i32, 12), out32_Q12);
    range::sat16(shift::rshift_round(left, 12))
}

// By an index, since an output is made of the inputs before its place.
//
// Filters `input` into the start of `out`, whose first `order` words are cleared and whose words past the input's length
// stay. The Rust's `len` is the input's length. The filter starts anew with `input`, so nothing before it is read.
pub fn silk_LPC_analysis_filter(out: &mut [i16], input: &[i16], b: &[i16], order: usize)
    requires { (length input.now ≤ length out.old) × (order ≤ length b.now) × (order ≤ length input.now) }
    ensures { out.new ≡ analysis out.old input.now b.now order }
{
    let n = input.len() - order;
    for k in 0..n {
        out[order + k] = filtered(input, b, order, order + k);
    }
    out[..order].fill(0);
}
