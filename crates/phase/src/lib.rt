// The phase axis.
#![tactic(auto)]

pub mod drive;
