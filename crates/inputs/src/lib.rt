// The sampled switches.
#![tactic(auto)]

pub mod contact;
pub mod panel;
pub mod switch;
