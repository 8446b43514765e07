// The texts of answers and faults (docs/RULES.md, "The call sheet"), in a lent buffer.
#![tactic(auto)]

pub mod text;
