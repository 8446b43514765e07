// The twelve settings of a call, from a row of words in the order of docs/RULES.md.
#![tactic(auto)]

pub mod named;
