// What `silk_nsq_del_dec_scale_states` makes of a subframe's gain.
ghost use Rattle.std.specs.Prelude.{◌≡◌, pos, ◌≤ℤ◌};
ghost use Rattle.word_steps.specs.Gains.{at_least_one, inv_gain_Q31 as inv_gain_q31, inv_gain_Q26 as inv_gain_q26, x_sc_Q10 as x_sc_q10, ltp_scaled_inv_gain as ltp_scaled_inv_gain, gain_adj_Q16 as gain_adj_q16};

use fixed::wrap;
use inverses::inlines;
use products::product;
use shifts::shift;

// The gain, or 1 where it is below.
fn at_least_one(gain: i32) -> i32
    ensures { (result ≡ at_least_one gain) × (pos 1 ≤ℤ result) }
{
    gain.max(1)
}

// The inverse of a gain.
pub fn inv_gain_Q31(gain: i32) -> i32
    ensures { result ≡ inv_gain_q31 gain }
{
    inlines::silk_INVERSE32_varQ(at_least_one(gain), 47)
}

// The same with fewer bits, rounded.
pub fn inv_gain_Q26(inv31: i32) -> i32
    ensures { result ≡ inv_gain_q26 inv31 }
{
    shift::rshift_round(inv31, 5)
}

// An input sample over the gain.
pub fn x_sc_Q10(x: i16, inv26: i32) -> i32
    ensures { result ≡ x_sc_q10 x inv26 }
{
    product::smulwb(inv26, x)
}

// The inverse gain by which subframe 0 scales its rewhitened history.
pub fn ltp_scaled_inv_gain(inv31: i32, LTP_scale_Q14: i32) -> i32
    ensures { result ≡ ltp_scaled_inv_gain inv31 LTP_scale_Q14 }
{
    shift::shl32(product::smulwb(inv31, wrap::low16(LTP_scale_Q14)), 2)
}

// The previous gain over this one.
pub fn gain_adj_Q16(prev: i32, gain: i32) -> i32
    requires { (pos 1 ≤ℤ prev) × (pos 1 ≤ℤ gain) }
    ensures { result ≡ gain_adj_q16 prev gain }
{
    inlines::silk_DIV32_varQ(prev, gain, 16)
}
