// Refusals 1 to 4 of docs/RULES.md: when a call's settings are refused. Every number has its answer.
#![tactic(auto)]

pub mod settings;
