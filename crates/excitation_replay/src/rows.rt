// The rows of the list.
ghost use Rattle.std.specs.Prelude.{◌≤◌, length};

use crate::{input, print};
use excitation::{answer, reader};
use fixed::wrap;
use limits::count;

// The pulses of a line after a number that `end` ends, in lent space: as much of it as they fill. Of a run that is too long comes what there is room for.
fn pulses<'a>(end: u8, space: &'a mut [i8; 1024]) -> &'a [i8] {
    let mut n = 0;
    let mut end = end;
    for _ in 0..1024 {
        if end == b'\n' {
            break;
        }
        let run = input::next_run();
        let times = run.times.min(1024 - n);
        space[n..n + times].fill(wrap::low8(run.value));
        n += times;
        end = run.end;
    }
    &space[..n]
}

// The rest of a line, whose first number was read already: the call with a row of the line's length, and what is printed of it.
fn case(seed: i32) {
    let signal_type = input::number();
    let offset_type = input::number();
    let length = input::number();
    let mut space = [0; 1024];
    let pulses = pulses(length.end, &mut space);
    let mut row = [1000000007; 1024];
    let row = &mut row[..count::count(length.value).min(1024)];
    let a = reader::excitation(pulses, seed, signal_type.value, offset_type.value, row);
    print::answer(answer::number(a));
    print::row(row);
}

// The next line of the list, if there is one.
pub fn next() {
    match input::byte() {
        0 => {}
        b'#' | b'\n' => input::skip(),
        first => {
            input::echo(first);
            case(input::number().value);
        }
    }
}
