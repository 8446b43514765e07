// The stored list, byte by byte from standard input. It is known to be well made: no fault is looked for.
ghost use Rattle.std.specs.Prelude.{◌<◌};

use fixed::wrap;
use limits::count;

// A number, and the byte after it: a space, a line feed, or `*`.
#[derive(Clone, Copy)]
pub struct Token {
    pub value: i32,
    pub end: u8,
}

// A number so many times, and the byte after it.
#[derive(Clone, Copy)]
pub struct Run {
    pub value: i32,
    pub times: usize,
    pub end: u8,
}

// The next byte, 0 after the last: no list has a 0, and a run of separators ends with it as with a line's end. As in `nsq_replay`, since a program
// cannot be used by another.
pub fn byte() -> u8 {
    let mut one = [0];
    io::read_full(0, &mut one);
    one[0]
}

// One digit more; a number stays below 2^40. As in `nsq_replay`.
fn grown(v: u64, b: u8) -> u64
    requires { v < 1099511627776 }
    ensures { result < 1099511627776 }
{
    if b.is_ascii_digit() {
        (v * 10 + (b - b'0') as u64) % 1099511627776
    } else {
        v
    }
}

// The next number.
pub fn number() -> Token {
    let first = byte();
    let mut v = grown(0, first);
    let mut end = 0;
    for _ in 0..12 {
        end = byte();
        if end == b'*' || end <= b' ' {
            break;
        }
        v = grown(v, end);
    }
    let size = wrap::low32(v as i64);
    let value = if first == b'-' {
        wrap::neg32(size)
    } else {
        size
    };
    Token { value, end }
}

// The next number, with how many times it stands.
pub fn next_run() -> Run {
    let Token { value, end } = number();
    if end != b'*' {
        return Run {
            value,
            times: 1,
            end,
        };
    }
    let times = number();
    Run {
        value,
        times: count::count(times.value),
        end: times.end,
    }
}

// The rest of a line passed over.
pub fn skip() {
    for _ in 0..4096 {
        if byte() <= b'\n' {
            break;
        }
    }
}

// A name printed byte for byte, whose first byte was read already.
pub fn echo(first: u8) {
    let mut b = first;
    for _ in 0..64 {
        if b <= b' ' {
            break;
        }
        io::write_all(1, &[b]);
        b = byte();
    }
}
