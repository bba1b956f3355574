// Host lines as orders: from words to the one thing that a line asks for, or what is wrong with it.
#![tactic(auto)]

pub mod cases;
pub mod fault;
mod giving;
pub mod heard;
pub mod hearing;
mod meaning;
mod numbers;
pub mod order;
pub mod reading;
pub mod start;
mod telling;
mod wrong;
