// The level, rate and wait of every pulse of a move.
#![tactic(auto)]

pub mod cases;
mod climb;
pub mod course;
pub mod mode;
pub mod motor;
pub mod pace;
pub mod rate;
pub mod root;
pub mod shape;
#[cfg(test)]
mod tests;
