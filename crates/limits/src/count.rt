// A setting as a count.
ghost use Rattle.std.specs.Prelude.{◌≡◌};
ghost use Rattle.limits.specs.Count.{nat_z};

// x, or 0 for a negative x: settings are i32, while lengths and places are counted without a sign.
pub fn count(x: i32) -> usize
    ensures { result ≡ nat_z x }
{
    usize::try_from(x).unwrap_or(0)
}
