// The bench: hangs a line on a wire, performs a scenario's calls on it, and tells what happened.

#![tactic(auto)]

pub mod options;
pub mod perform;
pub mod setup;
pub mod step;
pub mod totals;
