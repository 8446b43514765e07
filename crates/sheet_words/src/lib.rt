// The words of a call sheet and the numbers that they write (docs/RULES.md, "The call sheet").
#![tactic(auto)]

pub mod words;
