// The far end's excitation: what a decoder makes of the pulses and the seed of a frame (RFC 6716, 4.2.7.8.6). Every call has its answer.
#![tactic(auto)]

pub mod answer;
mod pulse;
pub mod reader;
mod refusals;
