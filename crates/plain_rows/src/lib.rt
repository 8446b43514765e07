// Settings and state as plain rows of words: read from rows and laid into them. Which word stands where is in specs/Layout.antt.
#![tactic(auto)]

pub mod layout;
