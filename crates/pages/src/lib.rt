// Bytes and numbers, appended to a lent buffer.
#![tactic(auto)]

pub mod number;
pub mod page;
