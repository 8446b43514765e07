// What the lag of a fresh state changes and what it doesn't (request E3): it is good for every length, from a fresh state the harmonic gains always
// count, and of first frames only those that are not voiced, have a harmonic gain and more than 99 samples can sound different from what they were.
// There is no code here: these are theorems about the definitions of `silk`, `limits`, `steps`, `counts`, `cleaning` and of the two programs.

#![tactic(auto)]
