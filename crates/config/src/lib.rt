// A configuration of an SPI master, and the question for its clock word.

#![tactic(auto)]

pub mod clocking;
pub mod config;
pub mod mode;
mod settings;
