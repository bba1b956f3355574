// All switches of the board.
use crate::contact::Contact;

pub mod sampling;

#[derive(Clone, Copy, PartialEq, Eq, Debug)]
pub struct Panel {
    // Each by its switch's bit.
    contacts: [Contact; 8],
}

// What turned active at a sample.
#[derive(Clone, Copy, PartialEq, Eq, Debug)]
pub struct Turned {
    pub clear: bool,
    pub hold: bool,
    pub stop: bool,
}

// The inputs that a program can ask for.
#[derive(Clone, Copy, PartialEq, Eq, Debug)]
pub enum Input {
    First,
    Second,
    Third,
    Fourth,
}
