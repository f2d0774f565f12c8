// A bus: what sends bytes and gives back as many.

#![tactic(auto)]

pub mod bare;
pub mod bus;
pub mod call;
