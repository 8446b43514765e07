// Call sheets (docs/RULES.md, "The call sheet"): reading one from bytes. The sections are for other sheets of the same form too.
#![tactic(auto)]

pub mod blank;
pub mod fault;
mod number;
pub mod rows;
pub mod section;
pub mod sheet;
