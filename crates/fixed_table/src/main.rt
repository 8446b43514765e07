// Tables of every function of `fixed`, `shifts`, `products` and `seeds`, and of std's methods that the programs use in their places, on edge values: the
// ends of each type, numbers around each power of two that is a shift, a rounding or a saturation edge, and two words with mixed bits. One line of
// results for each first argument.
//
// The file `stdout` was not made by this program. tests/rust/fixed_table.rs writes the same tables with the Rust
// expressions themselves (`wrapping_add`, `as i16`, `>>`, ..), built without overflow checks:
//     rustc -O -C overflow-checks=no tests/rust/fixed_table.rs -o fixed_table && ./fixed_table > crates/fixed_table/stdout
#![tactic(auto)]

use fixed::wrap;
use prints::output::Output;
use products::product;
use seeds::generator;
use shifts::{range, shift};
use std::fmt::{Display, Write};

const WORDS: [i32; 24] = [
    -2147483648,
    -2147483647,
    -1073741824,
    -305419896,
    -65537,
    -65536,
    -32769,
    -32768,
    -1024,
    -513,
    -1,
    0,
    1,
    512,
    1023,
    1024,
    32767,
    32768,
    65535,
    65536,
    305419896,
    1073741823,
    2147483646,
    2147483647,
];

// Around each half of a rounded shift, and around the ends of 8 and 16 bits.
const EDGES: [i32; 48] = [
    -8193, -8192, -8191, -2049, -2048, -2047, -513, -512, -511, -257, -256, -255, -129, -128, -127,
    -17, -16, -15, -9, -8, -7, -2, -1, 0, 1, 7, 8, 9, 15, 16, 17, 127, 128, 129, 255, 256, 511,
    512, 513, 2047, 2048, 2049, 8191, 8192, 8193, 31743, 31744, 31745,
];

const WIDE: [i64; 16] = [
    -9223372036854775808,
    -9223372036854775807,
    -4611686018427387904,
    -4294967297,
    -4294967296,
    -2147483649,
    -2147483648,
    -1,
    0,
    1,
    2147483647,
    2147483648,
    4294967295,
    4294967296,
    81985529216486895,
    9223372036854775807,
];

// What f makes of each argument, and a space after each. Here and below a write that fails is passed over: the run goes on to its end.
fn results<A: Copy, B: Display + Drop, F: Fn(A) -> B>(args: &[A], f: F)
    requires { F.IsAlwaysCallable f }
{
    for a in args {
        let _ = write!(Output, "{} ", f(*a));
    }
}

// A function's name, and a line of what it makes of these arguments.
fn row<A: Copy, B: Display + Drop, F: Fn(A) -> B>(name: &str, args: &[A], f: F)
    requires { F.IsAlwaysCallable f }
{
    let _ = writeln!(Output, "{name}");
    results(args, f);
    let _ = writeln!(Output);
}

// The same of words and then of edges.
fn row1<B: Display + Drop, F: Fn(i32) -> B>(name: &str, f: F)
    requires { F.IsAlwaysCallable f }
{
    let _ = writeln!(Output, "{name}");
    results(&WORDS, &f);
    results(&EDGES, &f);
    let _ = writeln!(Output);
}

// A function's name, and a line for each first word, of each second one.
fn table<B: Display + Drop, F: Fn(i32, i32) -> B>(name: &str, f: F)
    requires { F.IsAlwaysCallable f }
{
    let _ = writeln!(Output, "{name}");
    for a in WORDS {
        results(&WORDS, |b| f(a, b));
        let _ = writeln!(Output);
    }
}

// The functions of one word.
fn of_one() {
    row1("low16", wrap::low16);
    row1("high16", wrap::high16);
    row1("low8", wrap::low8);
    row1("neg32", wrap::neg32);
    row1("rshift_round4", |a| shift::rshift_round(a, 4));
    row1("rshift_round5", |a| shift::rshift_round(a, 5));
    row1("rshift_round8", |a| shift::rshift_round(a, 8));
    row1("rshift_round10", |a| shift::rshift_round(a, 10));
    row1("rshift_round12", |a| shift::rshift_round(a, 12));
    row1("rshift_round14", |a| shift::rshift_round(a, 14));
    row1("sat16", range::sat16);
    row1("abs32", range::abs32);
    row1("rand", generator::rand);
    row1("clamp32 to -31744 .. 30720", |a| {
        range::clamp32(a, -31744, 30720)
    });
}

// The functions of two words.
fn of_two() {
    table("add32", wrap::add32);
    table("sub32", wrap::sub32);
    table("mul32", wrap::mul32);
    table("mul16", |a, b| {
        product::mul16(wrap::low16(a), wrap::low16(b))
    });
    table("smulbb", product::smulbb);
    table("smulwb", |a, b| product::smulwb(a, wrap::low16(b)));
    table("smulwt", product::smulwt);
    table("smulww", product::smulww);
    table("smmul", product::smmul);
    table("or32", shift::or32);
    table("min32", |a: i32, b| a.min(b));
    table("shl32", |a, b: i32| shift::shl32(a, b.cast_unsigned()));
    table("shr32", |a, b: i32| shift::shr32(a, b.cast_unsigned()));
}

// A product added to a constant.
fn of_two_and_a_sum() {
    table("smlabb to 2147483647", |a, b| {
        product::smlabb(i32::MAX, a, b)
    });
    table("smlawb to -2147483648", |a, b| {
        product::smlawb(i32::MIN, a, wrap::low16(b))
    });
    table("smlawt to 2147483647", |a, b| {
        product::smlawt(i32::MAX, a, b)
    });
    table("smlaww to -2147483648", |a, b| {
        product::smlaww(i32::MIN, a, b)
    });
    table("smlawb to -1", |a, b| {
        product::smlawb(-1, a, wrap::low16(b))
    });
}

// The functions whose argument or result is of another type.
fn of_other_types() {
    row("low32", &WIDE, wrap::low32);
    row("bits32", &WORDS, |a: i32| a.cast_unsigned());
    row("clz32", &EDGES, shift::clz32);
    table("mul_u32", |a: i32, b: i32| {
        a.cast_unsigned().wrapping_mul(b.cast_unsigned())
    });
}

fn main() {
    of_one();
    of_two();
    of_two_and_a_sum();
    of_other_types();
}
