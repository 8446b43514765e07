// What comes of a call, laid into plain rows.
#![tactic(auto)]

pub mod laying;
