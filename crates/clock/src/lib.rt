// The clock setting of an SPI master: the two dividers, the clock word, and why a configuration is refused.

#![tactic(auto)]

pub mod dividers;
pub mod error;
pub mod word;
