// Piles: a bus under layers and splitters, reached only from its top, and what every list of calls does to one.

#![tactic(auto)]

pub mod bottom;
pub mod pile;
pub mod run;
