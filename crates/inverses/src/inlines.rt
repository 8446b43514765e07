// The inverse and the quotient of `Inlines.rs`, for numbers from 1 up, which is how the quantiser calls them.
ghost use Rattle.std.specs.Prelude.{◌≡◌, ◌<◌, pos, ◌≤ℤ◌};
ghost use Rattle.word_steps.specs.Inlines.{silk_INVERSE32_varQ as inverse32, silk_DIV32_varQ as div32};

use crate::inverse;

// About 2^Qres / b32.
pub fn silk_INVERSE32_varQ(b32: i32, Qres: u32) -> i32
    requires { (pos 1 ≤ℤ b32) × (Qres < 64) }
    ensures { result ≡ inverse32 b32 Qres }
{
    let b32_nrm = inverse::nrm(b32);
    let result = inverse::refined(b32_nrm, inverse::b32_inv(b32_nrm));
    inverse::shifted(result, inverse::headrm(b32) + Qres, 61)
}

// About 2^Qres * a32 / b32.
pub fn silk_DIV32_varQ(a32: i32, b32: i32, Qres: u32) -> i32
    requires { (pos 1 ≤ℤ a32) × (pos 1 ≤ℤ b32) × (Qres < 64) }
    ensures { result ≡ div32 a32 b32 Qres }
{
    let b32_nrm = inverse::nrm(b32);
    let result = inverse::result_2(inverse::nrm(a32), b32_nrm, inverse::b32_inv(b32_nrm));
    inverse::shifted(
        result,
        inverse::headrm(b32) + Qres,
        29 + inverse::headrm(a32),
    )
}
