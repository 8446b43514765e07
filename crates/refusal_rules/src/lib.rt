// Which calls are refused, and with which answer: the rule of docs/RULES.md ("What a call is given", "Which number comes back"), and what it comes to.
#![tactic(auto)]

pub mod answer;
