// The warped noise-shaping filter of one path.
ghost use Rattle.std.specs.Prelude.{◌≡◌, ◌≤◌, length};
ghost use Rattle.warped.specs.WarpedFilter.{warped_filter};

use fixed::wrap;
use products::product;
use shaping::start;

// Moves the first `order` words of the filter on by one sample, and returns the sum of the new words by their coefficients.
// The new word at a place needs the old words of that place and the one below, so one word is carried from turn to turn.
pub fn warped_filter(s: &mut [i32; 24], ar: &[i16], order: usize, warping: i16, diff: i32) -> i32
    requires { (1 ≤ order) × (order ≤ 24) × (order ≤ length ar.now) }
    ensures sum { result ≡ (warped_filter s.old ar.now order warping diff).n_AR_Q14 }
    ensures words { s.new ≡ (warped_filter s.old ar.now order warping diff).sAR2_Q14 }
{
    let mut n = start::half_order(order);
    let mut tmp = product::smlawb(diff, s[0], warping);
    let last = order - 1;
    for j in 0..last {
        let next = product::smlawb(s[j], wrap::sub32(s[j + 1], tmp), warping);
        s[j] = tmp;
        n = product::smlawb(n, tmp, ar[j]);
        tmp = next;
    }
    s[last] = tmp;
    product::smlawb(n, tmp, ar[last])
}
