// The first words of a row, lent on: a part of the row, not a copy.
#![tactic(auto)]

pub mod prefix;
