// The digests that the replays print: FNV-1a of 32 bits, which takes a word at a time, and of 64 bits, which takes a byte at a time.
#![tactic(auto)]

pub mod fnv;
