// Refusal 7 of docs/RULES.md: when the lags of a call are refused. Every number has its answer.
#![tactic(auto)]

pub mod lags;
