// The parameters of an indexer: their codes, ranges, starting values, and what each is set to.
#![tactic(auto)]

pub mod coding;
mod numbers;
pub mod parameter;
pub mod values;
