// The harmonic noise shaping, from three shaping words around the lag.
ghost use Rattle.std.specs.Prelude.{◌≡◌, ◌≤◌, ◌<◌};
ghost use Rattle.word_steps.specs.Harmonic.{packed_gain, ltp_term};

use fixed::wrap;
use products::product;
use shifts::shift;

// A quarter of the gain in the low half and a half of it in the high half. The two are joined by OR: a negative gain's
// quarter has its sign in all the high bits, where a sum would give another word.
pub fn harm_shape_packed(gain: i32) -> i32
    ensures { result ≡ packed_gain gain }
{
    shift::or32(
        shift::shr32(gain, 2),
        shift::shl32(shift::shr32(gain, 1), 16),
    )
}

// The Rust's shp_lag_ptr is `shp` from the word `at` on, read backwards. The outer two words go with the packed gain's
// low half and the middle one with its high half.
pub fn n_LTP(shp: &[i32; 640], at: usize, packed: i32, ltp_pred: i32) -> i32
    requires { (2 ≤ at) × (at < 640) }
    ensures { result ≡ ltp_term shp.now at packed ltp_pred }
{
    let outer = wrap::add32(shp[at], shp[at - 2]);
    let n = product::smulwb(outer, wrap::low16(packed));
    let shaped = product::smlawt(n, shp[at - 1], packed);
    wrap::sub32(ltp_pred, shift::shl32(shaped, 2))
}
