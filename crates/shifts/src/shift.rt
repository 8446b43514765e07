// Shifts, the rounded shifts, the bitwise OR and the count of leading zeros.
ghost use Rattle.std.specs.Prelude.{◌≡◌, ◌≤◌, ◌<◌};
ghost use Rattle.fixed.specs.Shift.{shl32 as shl32_z, shr32 as shr32_z, rround, or32 as or32_z, clz32 as clz32_z};

// `x << s` with the low 32 bits kept. Like the release build it reads the count modulo 32, so every count has an answer.
pub fn shl32(x: i32, s: u32) -> i32
    ensures { result ≡ shl32_z x s }
{
    x << (s % 32)
}

// `x >> s`, rounded towards minus infinity; the count as above.
pub fn shr32(x: i32, s: u32) -> i32
    ensures { result ≡ shr32_z x s }
{
    x >> (s % 32)
}

// The rounded shift by s. It asks for a count that the sum cannot overflow at; the quantiser's are 4, 5, 8, 10, 12 and 14.
pub fn rshift_round(v: i32, s: u32) -> i32
    requires { (2 ≤ s) × (s < 32) }
    ensures { result ≡ rround v s }
{
    ((v >> (s - 1)) + 1) >> 1
}

// The bitwise OR of two words.
pub fn or32(a: i32, b: i32) -> i32
    ensures { result ≡ or32_z a b }
{
    a | b
}

// The leading zeros of the 32 bits of x: 32 for 0, none where x is negative.
pub fn clz32(x: i32) -> u32
    ensures { result ≡ clz32_z x }
{
    x.leading_zeros()
}
