// The codes of program lines and of host lines.
#![tactic(auto)]

pub mod coded;
pub mod host;
pub mod program;
