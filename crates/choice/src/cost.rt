// What a level costs.
ghost use Rattle.std.specs.Prelude.{◌≡◌};
ghost use Rattle.choice.specs.RustChoice.{with_noise};

use fixed::wrap;
use products::product;
use shifts::shift;

// The cost of level q for the residual r: to `rd`, its size times Lambda, comes the square of the error.
pub fn with_noise(rd: i32, r: i32, q: i32) -> i32
    ensures { result ≡ with_noise rd r q }
{
    let rr = wrap::sub32(r, q);
    shift::shr32(product::smlabb(rd, rr, rr), 10)
}
