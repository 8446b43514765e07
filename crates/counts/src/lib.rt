// What doesn't count can't matter, and later sound can't change earlier pulses: docs/RULES.md, demand 3. These are theorems about the definition
// that the quantiser is proved to meet (`outcome` of the crate `nsq`), and there is no code here. The statements stand in specs/, on whole
// numbers and lists, the theorems in proofs/Theorems.antt.

#![tactic(auto)]
