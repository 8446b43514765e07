// A call cleaned: every number that doesn't count is cleared (docs/RULES.md, "What counts"). The definition stands in specs/Cleaned.antt, the list of
// what it changes in specs/Changes.antt; the theorems are in proofs/Theorems.antt and proofs/Listed.antt. `call` cleans a call in place.
#![tactic(auto)]

pub mod call;
mod rows;
mod tests;
