// A pump board as a line.

#![tactic(auto)]

pub mod pump;
