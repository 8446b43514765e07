// Rows of sheets, copied by `clone`: for each width and five counts of numbers, the width, how many numbers the copy has, and their digest.
//
// The file `stdout` beside src/ was written by Rust, not by this program: by tests/rust/row_copies.rs, which makes the same numbers and
// clones rows of Rust's own. That file says how to repeat it.
#![tactic(auto)]

ghost use Rattle.std.specs.Prelude.{◌≡◌};

use digests::fnv::Fnv32;
use fixed::wrap;
use prints::output::Output;
use sheet_form::rows::{MOST, Word, Words};
use std::fmt::Write;

// A copy of a row. That `clone` gives one, and that it is the row, follows from its law.
fn copied<T: Word>(row: &Words<T>) -> Words<T>
    ensures { result ≡ row.now }
{
    row.clone().unwrap()
}

// The lines of a width: of the row's first numbers, as many as each count says.
fn lines<T: Word, F: Fn(T) -> i32>(width: u32, full: &Words<T>, wide: F)
    requires { F.IsAlwaysCallable wide }
{
    for count in [0, 1, 2, MOST - 1, MOST] {
        let mut row = *full;
        row.truncate(count);
        let copy = copied(&row);
        let mut digest = Fnv32::new();
        for x in copy.as_slice() {
            digest = digest.word(wide(*x));
        }
        let _ = writeln!(Output, "{width} {} {:08x}", copy.len(), digest.sum);
    }
}

// A full row. Number k is a product that wraps, so that no two beside each other are equal.
fn full<T: Word, F: Fn(i32) -> T>(narrow: F) -> Words<T>
    requires { F.IsAlwaysCallable narrow }
{
    let mut numbers = [T::zero(); MOST];
    let mut x = 0i32;
    for number in numbers.iter_mut() {
        *number = narrow(x);
        x = wrap::add32(x, -1640531527);
    }
    Words::of(&numbers)
}

fn main() {
    lines(8, &full(|x| wrap::low8(x)), |x| i32::from(x));
    lines(16, &full(|x| wrap::low16(x)), |x| i32::from(x));
    lines(32, &full(|x| x), |x| x);
}
