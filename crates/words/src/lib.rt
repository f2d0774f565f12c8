// The words of a line, and what they stand for.

#![tactic(auto)]

pub mod words;
