// Layers over a bus: bytes go down changed, and answers come up changed.

#![tactic(auto)]

pub mod change;
pub mod layer;
mod scratch;
