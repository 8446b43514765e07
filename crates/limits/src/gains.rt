// Refusal 6: by the gains.
ghost use Rattle.std.specs.Prelude.{◌≡◌};
ghost use Rattle.limits.specs.Tests.{gain_refused, gains_refused};

// Is the gain below 1?
fn gain_refused(gain: &i32) -> bool
    ensures { result ≡ gain_refused gain.now }
{
    *gain < 1
}

// 6: a gain, or `prev_gain_Q16`, is below 1.
pub fn gains_refused(prev_gain_Q16: i32, gains: &[i32]) -> bool
    ensures { result ≡ gains_refused prev_gain_Q16 gains.now }
{
    gain_refused(&prev_gain_Q16) || gains.iter().any(gain_refused)
}
