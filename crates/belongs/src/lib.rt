// The pulses that are handed out belong to the final winner, whatever the number of paths (request E9): its own pulses, which it carried with it, are
// those of the call, so the report of a call is 0. And the far end hears what the winner meant. There is no code here: these are theorems about
// the definitions `outcome` and `report` of the crate `steps`.

#![tactic(auto)]
