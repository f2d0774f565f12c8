// A splitter over a bus: short calls below, whatever the length above.

#![tactic(auto)]

mod port;
pub mod splitter;
