// The program `clean` as a function of its bytes: a sheet is read, what doesn't count in it is cleared, and what this changed is printed before it.
#![tactic(auto)]

mod lines;
pub mod page;
mod sheet;
