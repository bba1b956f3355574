// The piles of layers and drives that are shipped.
#![tactic(auto)]

pub mod shipped;
