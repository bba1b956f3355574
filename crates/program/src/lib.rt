// Program memory: 400 lines that the host lends, stored whole or not at all.
#![tactic(auto)]

pub mod clearing;
pub mod fault;
mod guard;
pub mod number;
mod storing;
pub mod taken;
pub mod taking;
