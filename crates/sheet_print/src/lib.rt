// Printing: call sheets (docs/RULES.md, "The call sheet"), as bytes in a lent buffer.
#![tactic(auto)]

pub mod sheet;
