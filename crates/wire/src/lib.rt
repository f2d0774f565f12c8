// What a wire carries, and what hangs on it.

#![tactic(auto)]

pub mod calls;
pub mod event;
pub mod line;
pub mod recorder;
