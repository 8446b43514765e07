// The scalars of each subframe of a call.
#![tactic(auto)]

pub mod scalars;
