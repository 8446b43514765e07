// Products of 16-bit and 32-bit words, by the names of SILK's macros: B is the low half of a word and T its high half,
// W the whole word, SMUL the product and SMLA the product added to an accumulator. A product is taken in 64 bits
// before its shift, and an accumulator keeps its low 32 bits.
ghost use Rattle.std.specs.Prelude.{◌≡◌, ◌*ℤ◌};
ghost use Rattle.products.specs.Product.{smulbb as smulbb_z, smlabb as smlabb_z, smulwb as smulwb_z, smlawb as smlawb_z, smulwt as smulwt_z, smlawt as smlawt_z, smulww as smulww_z, smlaww as smlaww_z, smmul as smmul_z};

use fixed::wrap;

// The product of two 16-bit words, which always fits.
pub fn mul16(a: i16, b: i16) -> i32
    ensures { result ≡ a *ℤ b }
{
    (a as i32) * (b as i32)
}

// The product of the low halves.
pub fn smulbb(a: i32, b: i32) -> i32
    ensures { result ≡ smulbb_z a b }
{
    mul16(wrap::low16(a), wrap::low16(b))
}

pub fn smlabb(acc: i32, a: i32, b: i32) -> i32
    ensures { result ≡ smlabb_z acc a b }
{
    wrap::add32(acc, smulbb(a, b))
}

pub fn smulwb(a: i32, b: i16) -> i32
    ensures { result ≡ smulwb_z a b }
{
    (((a as i64) * (b as i64)) >> 16) as i32
}

pub fn smlawb(acc: i32, a: i32, b: i16) -> i32
    ensures { result ≡ smlawb_z acc a b }
{
    wrap::add32(acc, smulwb(a, b))
}

// The product with the high half of a packed word.
pub fn smulwt(a: i32, packed: i32) -> i32
    ensures { result ≡ smulwt_z a packed }
{
    smulwb(a, wrap::high16(packed))
}

pub fn smlawt(acc: i32, a: i32, packed: i32) -> i32
    ensures { result ≡ smlawt_z acc a packed }
{
    wrap::add32(acc, smulwt(a, packed))
}

pub fn smulww(a: i32, b: i32) -> i32
    ensures { result ≡ smulww_z a b }
{
    wrap::low32(((a as i64) * (b as i64)) >> 16)
}

pub fn smlaww(acc: i32, a: i32, b: i32) -> i32
    ensures { result ≡ smlaww_z acc a b }
{
    wrap::add32(acc, smulww(a, b))
}

// The upper 32 bits of the product.
pub fn smmul(a: i32, b: i32) -> i32
    ensures { result ≡ smmul_z a b }
{
    (((a as i64) * (b as i64)) >> 32) as i32
}
