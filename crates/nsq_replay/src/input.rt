// The stored list, byte by byte from standard input, and the numbers that its words write. The list is known to be well made: no
// fault is looked for. One byte is read at a time, since a buffer for the whole list would cost the proof more than the reads cost the run.
ghost use Rattle.std.specs.Prelude.{◌<◌};

use fixed::wrap;
use limits::count;

// The next byte, 0 after the last: no list has a 0, and a word ends with it as with a space. As in `excitation_replay`, since a program cannot be
// used by another.
pub fn byte() -> u8 {
    let mut one = [0];
    io::read_full(0, &mut one);
    one[0]
}

// One digit more; a number stays below 2^40. As in `excitation_replay`.
fn grown(v: u64, b: u8) -> u64
    requires { v < 1099511627776 }
    ensures { result < 1099511627776 }
{
    if b.is_ascii_digit() {
        (v * 10 + (b - b'0') as u64) % 1099511627776
    } else {
        v
    }
}

// The number that a word writes, whose first byte was read already. The separator after it is read too.
pub fn number_from(first: u8) -> i32 {
    let mut v = grown(0, first);
    for _ in 0..12 {
        let b = byte();
        if b <= b' ' {
            break;
        }
        v = grown(v, b);
    }
    let size = wrap::low32(v as i64);
    if first == b'-' {
        wrap::neg32(size)
    } else {
        size
    }
}

// The number that the next word writes.
pub fn number() -> i32 {
    number_from(byte())
}

// A row filled with what `of` makes of the next numbers.
pub fn fill<T: Copy, F: Fn(i32) -> T>(row: &mut [T], of: F)
    requires { F.IsAlwaysCallable of }
{
    for w in row.iter_mut() {
        *w = of(number());
    }
}

// A row of the list, its count and then its numbers, in lent space: as much of it as the row fills.
pub fn row<'a, T: Copy, F: Fn(i32) -> T>(space: &'a mut [T; 320], of: F) -> &'a [T]
    requires { F.IsAlwaysCallable of }
{
    let n = count::count(number()).min(320);
    let row = &mut space[..n];
    fill(row, of);
    row
}

// The rest of a line printed byte for byte, whose first byte was read already.
pub fn echo(first: u8) {
    let mut b = first;
    for _ in 0..64 {
        io::write_all(1, &[b]);
        if b == b'\n' {
            break;
        }
        b = byte();
    }
}
