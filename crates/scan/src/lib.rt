// Text cut into words and numbers.
#![tactic(auto)]

pub mod cases;
pub mod field;
pub mod number;
pub mod runs;
#[cfg(test)]
mod tests;
pub mod words;
