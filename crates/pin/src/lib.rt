// The pin axis.
#![tactic(auto)]

pub mod drive;
pub mod example;
