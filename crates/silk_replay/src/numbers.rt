use prints::output::Output;
use std::fmt::{Display, Write};

// A number on a line of its own. A write that fails is passed over: the run goes on to its end.
pub fn print<T: Display + Drop>(x: T) {
    let _ = writeln!(Output, "{x}");
}
