// Numbers and bytes, as words write them.

#![tactic(auto)]

pub mod digits;
