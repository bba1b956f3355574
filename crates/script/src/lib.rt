// The bench script: rows of text, and what each asks for.
#![tactic(auto)]

pub mod fault;
mod host;
pub mod mistake;
pub mod row;
pub mod source;
