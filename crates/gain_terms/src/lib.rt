// What a subframe's gain gives: its inverses, and what the state is multiplied by where it changes.
#![tactic(auto)]

pub mod gains;
