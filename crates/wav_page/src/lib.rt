// The program `wav` as a function of its bytes: what was found in a WAV file, as text.
#![tactic(auto)]

pub mod page;
