// The two terms of the shaped noise that a path works out from its own words.
ghost use Rattle.std.specs.Prelude.{◌≡◌};
ghost use Rattle.noise.specs.NoiseTerms.{ar_term, lf_term};

use fixed::wrap;
use products::product;
use shifts::shift;

// The spectral term: the warped filter's sum `n`, with the tilt. Of the tilt only the low 16 bits are read.
pub fn n_AR(n: i32, lf_ar: i32, tilt: i32) -> i32
    ensures { result ≡ ar_term n lf_ar tilt }
{
    let doubled = shift::shl32(n, 1);
    shift::shl32(product::smlawb(doubled, lf_ar, wrap::low16(tilt)), 2)
}

// The low-frequency term: the newest shaping word by the low half of `lf_shp`, and LF_AR by its high half.
pub fn n_LF(shape: i32, lf_ar: i32, lf_shp: i32) -> i32
    ensures { result ≡ lf_term shape lf_ar lf_shp }
{
    let low = product::smulwb(shape, wrap::low16(lf_shp));
    shift::shl32(product::smlawt(low, lf_ar, lf_shp), 2)
}
