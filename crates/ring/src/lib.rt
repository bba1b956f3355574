// A ring over memory that the host lends: first in, first out.
#![tactic(auto)]

ghost use Rattle.std.specs.Prelude.{◌≡◌, ◌<◌, ◌≤◌, length};

mod queue;

// The ring has no room.
#[derive(Clone, Copy, PartialEq, Eq, Debug)]
pub struct Full;

impl Full {
    // Its number on the refusal card.
    pub fn number(self) -> u8
        ensures { result ≡ 15 }
    {
        15
    }
}

// A slice with a length beside it: the memory is the host's, of fixed size, and no heap is used.
#[derive(Drop)]
pub struct Ring<'a, T: Copy> {
    cells: &'a mut [T],
    // Where the oldest element stands, and how many there are.
    start: usize,
    len: usize,
    ghost room: { len ≤ length cells.now },
    ghost within: { start ≤ length cells.now },
    ghost begins: { 0 < length cells.now → start < length cells.now },
}

#[cfg(test)]
mod tests;
