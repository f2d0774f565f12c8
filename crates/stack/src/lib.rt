// Layers that are chosen at run time on a bare line, and calls through them.

#![tactic(auto)]

mod depth;
pub mod setup;
pub mod step;
pub mod through;
