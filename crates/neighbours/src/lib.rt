// What stands next to each thing that doesn't count does count (docs/RULES.md, "What counts"): pairs of calls that differ in one word, and whose
// outcomes differ. It is all in specs/ and proofs/, and there is no code here.

#![tactic(auto)]
