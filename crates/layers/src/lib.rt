// Layers over any axis.
#![tactic(auto)]

pub mod allowance;
pub mod fence;
pub mod reversed;
pub mod span;
