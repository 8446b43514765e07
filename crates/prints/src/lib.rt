// What the test programs print through: the kit's `io`, so that they trust no more of the system than it does.
#![tactic(auto)]

pub mod output;
