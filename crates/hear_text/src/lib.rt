// What the far end hears of a frame: from the bytes of a small sheet to the bytes of its text.
#![tactic(auto)]

mod answer;
mod call;
pub mod hear;
