// What is printed of a call. A write that fails is passed over: the run goes on to its end.
use crate::digest;
use limits::count;
use prints::output::Output;
use silk::structs::{NsqState, Settings};
use std::fmt::Write;

// A row of pulses, twenty to a line.
fn pulses(row: &[i8]) {
    for (i, pulse) in row.iter().enumerate() {
        let end = if i % 20 == 19 || row.len() - i == 1 {
            "\n"
        } else {
            " "
        };
        let _ = write!(Output, "{pulse}{end}");
    }
}

// A call that was answered: its number, its row of pulses, and the seed and the state after it.
pub fn answer(s: Settings, number: u32, seed: i32, state: &NsqState, rand_seed: i32, out: &[i8]) {
    let _ = writeln!(Output, "answer {number}");
    let _ = writeln!(Output, "seed {seed}");
    if number == 0 {
        pulses(out);
        let l = count::count(s.subfr_length);
        let _ = writeln!(Output, "count {:016x}", digest::counting(state, l).sum);
    }
    let _ = writeln!(Output, "full {:016x}", digest::full(state, rand_seed).sum);
}
