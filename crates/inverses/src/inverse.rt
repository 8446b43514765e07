// The steps that the inverse and the quotient share.
ghost use Rattle.std.specs.Prelude.{◌≡◌, ◌≤◌, ◌<◌, pos, ◌≤ℤ◌};
ghost use Rattle.word_steps.specs.Inlines.{headrm as headrm_z, nrm as nrm_z, b32_inv as b32_inv, lshift_SAT32 as lshift_sat32, shifted as shifted_z, refined as refined_z, result_2 as result2};

use fixed::wrap;
use products::product;
use shifts::{range, shift};

// How far a number can go up and stay below 2^31.
pub fn headrm(x: i32) -> u32
    requires { pos 1 ≤ℤ x }
    ensures { (result ≡ headrm_z x) × (result ≤ 30) }
{
    shift::clz32(range::abs32(x)) - 1
}

// The number moved up that far.
pub fn nrm(x: i32) -> i32
    requires { pos 1 ≤ℤ x }
    ensures { (result ≡ nrm_z x) × (pos 1073741824 ≤ℤ result) }
{
    shift::shl32(x, headrm(x))
}

// A first inverse, by the upper half of a number that was moved up.
pub fn b32_inv(b32_nrm: i32) -> i32
    requires { pos 1073741824 ≤ℤ b32_nrm }
    ensures { result ≡ b32_inv b32_nrm }
{
    0x1fff_ffff / (b32_nrm >> 16)
}

// A shift left that saturates.
fn lshift_SAT32(z: i32, s: u32) -> i32
    ensures { result ≡ lshift_sat32 z s }
{
    shift::shl32(
        range::clamp32(z, shift::shr32(-2147483648, s), shift::shr32(2147483647, s)),
        s,
    )
}

// The result, moved up by `up` and down by `down`.
pub fn shifted(res: i32, up: u32, down: u32) -> i32
    ensures { result ≡ shifted_z res up down }
{
    if down <= up {
        lshift_SAT32(res, up - down)
    } else {
        let lshift = down - up;
        if lshift < 32 {
            shift::shr32(res, lshift)
        } else {
            0
        }
    }
}

// The inverse of a number that was moved up, corrected once.
pub fn refined(b32_nrm: i32, inv: i32) -> i32
    ensures { result ≡ refined_z b32_nrm inv }
{
    let met = product::smulwb(b32_nrm, wrap::low16(inv));
    let err_Q32 = shift::shl32(wrap::sub32(536870912, met), 3);
    product::smlaww(shift::shl32(inv, 16), err_Q32, inv)
}

// The quotient of two numbers that were moved up, corrected once.
pub fn result_2(a32_nrm: i32, b32_nrm: i32, inv: i32) -> i32
    ensures { result ≡ result2 a32_nrm b32_nrm inv }
{
    let half = wrap::low16(inv);
    let result = product::smulwb(a32_nrm, half);
    let rest = wrap::sub32(a32_nrm, shift::shl32(product::smmul(b32_nrm, result), 3));
    product::smlawb(result, rest, half)
}
