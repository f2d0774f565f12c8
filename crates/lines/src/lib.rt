// Three lines: a relay chain, a script and a pump board; and a line that is any of them.

#![tactic(auto)]

pub mod any;
pub mod script;
