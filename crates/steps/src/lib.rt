// The definition of the Rust's steps above those of one path: among the paths, a sample, a subframe, the change of gain, the frame, the
// whole call. It has no function: what the code is proved against and what demand 3 speaks of stands in specs/, and rests on no code above
// a path's.
#![tactic(auto)]

pub mod structs;
