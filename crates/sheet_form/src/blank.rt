// Arrays with nothing in them yet. One function for the three would need a trait for the number 0, which is no plainer.
ghost use Rattle.std.specs.Prelude.{◌≡◌};
ghost use Rattle.silk.specs.State.{zeros};

use crate::rows::MOST;

// 320 zeros.
pub fn zeros32() -> [i32; MOST]
    ensures { result ≡ zeros 320 }
{
    [0; MOST]
}

pub fn zeros16() -> [i16; MOST]
    ensures { result ≡ zeros 320 }
{
    [0; MOST]
}

pub fn zeros8() -> [i8; MOST]
    ensures { result ≡ zeros 320 }
{
    [0; MOST]
}
