// The parts of SILK on which the delayed-decision quantiser stands: its constants, settings and state.
#![tactic(auto)]

pub mod define;
pub mod structs;
