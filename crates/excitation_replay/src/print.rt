// What is printed of a row. A write that fails is passed over: the run goes on to its end.
use prints::output::Output;
use std::fmt::Write;

pub fn answer(number: u32) {
    let _ = write!(Output, " {number}");
}

// The words of a row and a line feed; four or more equal words as v*n.
pub fn row(row: &[i32]) {
    for run in row.chunk_by(|a, b| a == b) {
        if run.len() < 4 {
            for v in run {
                let _ = write!(Output, " {v}");
            }
        } else {
            let _ = write!(Output, " {}*{}", run[0], run.len());
        }
    }
    let _ = writeln!(Output);
}
