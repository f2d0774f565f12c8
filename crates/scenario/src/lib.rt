// The reader of a small scenario language.

#![tactic(auto)]

pub mod read;
pub mod statement;
pub mod whole;
