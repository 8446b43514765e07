// Where a filter's sum starts.
ghost use Rattle.std.specs.Prelude.{◌≡◌, ◌/◌, ◌≤◌, pos};

// `order >> 1`: what the roundings down of the taps take away, on average.
pub fn half_order(order: usize) -> i32
    requires { order ≤ 24 }
    ensures { result ≡ pos (order / 2) }
{
    (order / 2) as i32
}
