// What a run lends to the calls after it.
ghost use Rattle.std.specs.Prelude.{◌≡◌, length, IfOk, OnOk};

use orders::heard::Fields;
use program::clearing::UNPROGRAMMED;
use program::number::lines::LINES;
use std::alloc::{AllocError, Global};

// Where a script says nothing of it.
const ROOM: usize = 64;

#[derive(Drop)]
pub struct Lent {
    heap: Global,
    program: Vec<Fields>,
    // In place of the program, where some other number of lines is lent.
    other: Option<Vec<Fields>>,
    answer: Vec<u8>,
}

impl Lent {
    pub fn new(heap: Global) -> Result<Lent, AllocError>
        ensures lines { IfOk result (λ lent. length lent.program.items ≡ 400) }
        ensures room { IfOk result (λ lent. length lent.answer.items ≡ 64) }
    {
        Ok(Lent {
            heap,
            program: vec![in heap; UNPROGRAMMED; LINES]?,
            other: None,
            answer: vec![in heap; 0; ROOM]?,
        })
    }

    // So many bytes for answers from now on.
    pub fn room(&mut self, count: usize) -> Result<(), AllocError>
        ensures room { OnOk result (length self.new.answer.items ≡ count) }
        ensures lines { self.new.program ≡ self.old.program }
    {
        self.answer = vec![in self.heap; 0; count]?;
        Ok(())
    }

    // So many program lines from now on: the program itself, where the number is that of its lines.
    pub fn lend(&mut self, count: usize) -> Result<(), AllocError>
        ensures lines { self.new.program ≡ self.old.program }
        ensures room { self.new.answer ≡ self.old.answer }
    {
        self.other = if count == LINES {
            None
        } else {
            Some(vec![in self.heap; UNPROGRAMMED; count]?)
        };
        Ok(())
    }

    pub fn lines(&mut self) -> &mut [Fields] {
        self.other
            .as_mut()
            .unwrap_or(&mut self.program)
            .as_mut_slice()
    }

    pub fn answer(&mut self) -> &mut [u8] {
        self.answer.as_mut_slice()
    }
}
