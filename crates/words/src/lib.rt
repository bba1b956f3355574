// Host lines as words: from bytes to the words that they spell, or the first byte that is wrong.
#![tactic(auto)]

pub mod bytes;
pub mod digits;
pub mod kind;
pub mod reader;
mod runs;
#[cfg(test)]
mod tests;
pub mod word;
