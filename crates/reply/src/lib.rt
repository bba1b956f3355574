// Answers to host lines, as bytes, and the slip that each line is taken for.
#![tactic(auto)]

pub mod answer;
mod digits;
pub mod line;
pub mod sending;
pub mod slip;
mod texts;
mod writing;
