// Answers as the numbers of docs/RULES.md, "Which number comes back".
#![tactic(auto)]

pub mod answers;
