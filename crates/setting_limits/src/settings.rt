// Refusals 1 to 4: by the settings alone.
ghost use Rattle.std.specs.Prelude.{◌≡◌};
ghost use Rattle.limits.specs.Tests.{outside as outside_z, length_allowed, count_allowed, order_for, odd_z, lengths_refused, orders_refused, paths_refused, kinds_refused};

use limits::count;

// Is x below lo or above hi?
pub fn outside(lo: i32, hi: i32, x: i32) -> bool
    ensures { result ≡ outside_z lo hi x }
{
    x < lo || hi < x
}

// The subframe lengths. They stand here, and in `length_allowed`, alone.
fn length_allowed(l: i32) -> bool
    ensures { result ≡ length_allowed l }
{
    l == 40 || l == 60 || l == 80
}

// The subframe counts.
fn count_allowed(n: i32) -> bool
    ensures { result ≡ count_allowed n }
{
    n == 2 || n == 4
}

// The prediction order that goes with a subframe length.
fn order_for(l: i32) -> i32
    ensures { result ≡ order_for l }
{
    if l == 80 { 16 } else { 10 }
}

// Is x, a number that is not negative, odd?
fn odd(x: i32) -> bool
    ensures { result ≡ odd_z x }
{
    count::count(x) % 2 == 1
}

// 1: L or n is not allowed.
pub fn lengths_refused(l: i32, n: i32) -> bool
    ensures { result ≡ lengths_refused l n }
{
    !length_allowed(l) || !count_allowed(n)
}

// 2: the prediction order is not the one for L, or the shaping order is not even, 2 to 24.
pub fn orders_refused(l: i32, order: i32, shaping: i32) -> bool
    ensures { result ≡ orders_refused l order shaping }
{
    order != order_for(l) || outside(2, 24, shaping) || odd(shaping)
}

// 3: the path count is not 1 to 4.
pub fn paths_refused(paths: i32) -> bool
    ensures { result ≡ paths_refused paths }
{
    outside(1, 4, paths)
}

// 4: signal type, offset type, interpolation or seed is out of range.
pub fn kinds_refused(kind: i32, offset: i32, interp: i32, seed: i32) -> bool
    ensures { result ≡ kinds_refused kind offset interp seed }
{
    outside(0, 2, kind) || outside(0, 1, offset) || outside(0, 4, interp) || outside(0, 3, seed)
}
