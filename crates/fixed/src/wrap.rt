// Numbers that keep their low bits: what the release build does where a sum, a difference, a negation, a product or a
// cast leaves its type.
ghost use Rattle.std.specs.Prelude.{◌≡◌, ◌+ℤ◌, ◌-ℤ◌, ◌*ℤ◌, neg_ℤ};
ghost use Rattle.fixed.specs.Wrap.{wrap32, wrap16, wrap8};
ghost use Rattle.fixed.specs.Shift.{shr};

// Four casts of the Rust, each a function of its own: a trait over their types would have the definitions `wrap32`, `wrap16` and `wrap8` as its law
// and be no shorter, and the theorems above name these.

// The low 32 bits of x, with their sign: `x as i32`.
pub fn low32(x: i64) -> i32
    ensures { result ≡ wrap32 x }
{
    ((x << 32) >> 32) as i32
}

// The low 16 bits of x, with their sign: `x as i16`.
pub fn low16(x: i32) -> i16
    ensures { result ≡ wrap16 x }
{
    ((x << 16) >> 16) as i16
}

// The high 16 bits of x, with their sign: `(x >> 16) as i16`, which loses nothing.
pub fn high16(x: i32) -> i16
    ensures { result ≡ shr x 16 }
{
    (x >> 16) as i16
}

// The low 8 bits of x, with their sign: `x as i8`.
pub fn low8(x: i32) -> i8
    ensures { result ≡ wrap8 x }
{
    ((x << 24) >> 24) as i8
}

pub fn add32(a: i32, b: i32) -> i32
    ensures { result ≡ wrap32 (a +ℤ b) }
{
    a.wrapping_add(b)
}

pub fn sub32(a: i32, b: i32) -> i32
    ensures { result ≡ wrap32 (a -ℤ b) }
{
    a.wrapping_sub(b)
}

pub fn neg32(a: i32) -> i32
    ensures { result ≡ wrap32 (neg_ℤ a) }
{
    a.wrapping_neg()
}

pub fn mul32(a: i32, b: i32) -> i32
    ensures { result ≡ wrap32 (a *ℤ b) }
{
    a.wrapping_mul(b)
}
