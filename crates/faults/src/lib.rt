// What is wrong with a scenario.

#![tactic(auto)]

pub mod fault;
