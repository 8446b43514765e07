// Which calls are refused, and with which answer: docs/RULES.md, "What a call is given" and "Which number comes back". Every
// call has its answer, whatever its numbers and the lengths of its rows are, and no word of a row is read that is not there.
#![tactic(auto)]

pub mod check;
mod rows;
