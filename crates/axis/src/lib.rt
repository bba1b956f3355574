// What an axis is, and what can be said of every axis.
#![tactic(auto)]

pub mod direction;
pub mod display;
pub mod interface;
pub mod speeds;
pub mod stroke;
