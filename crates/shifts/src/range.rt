// Numbers held to a range.
ghost use Rattle.std.specs.Prelude.{◌≡◌};
ghost use Rattle.fixed.specs.Range.{clamp, sat16 as sat16_z, abs32 as abs32_z};

// v, or the end of the range that it is past; `lo` is meant to be at most `hi`, and `hi` is looked at first. Not std's `clamp`, which asks for that order,
// nor `min` and `max`, which answer otherwise where `lo` is above `hi`: `fixed:clamp` says what comes there.
pub fn clamp32(v: i32, lo: i32, hi: i32) -> i32
    ensures { result ≡ clamp lo hi v }
{
    if v > hi {
        hi
    } else if v < lo {
        lo
    } else {
        v
    }
}

// v, or the end of the 16-bit range that it is past.
pub fn sat16(v: i32) -> i16
    ensures { result ≡ sat16_z v }
{
    v.clamp(-32768, 32767) as i16
}

// |x|, but for the least number, whose negation wraps to itself.
pub fn abs32(x: i32) -> i32
    ensures { result ≡ abs32_z x }
{
    x.wrapping_abs()
}
