// A fresh state, as two plain rows.
#![tactic(auto)]

pub mod rows;
