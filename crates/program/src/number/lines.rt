// Line numbers, and where their lines stand in the memory.
ghost use Rattle.std.specs.Prelude.{◌≡◌, ◌-◌, ◌<◌, ◌≤◌, IfNone, IfSome};

use super::LineNumber;

// How many lines a program has. Not orders' own count, which is below this crate, and each has an edit that breaks it.
pub const LINES: usize = 400;

impl LineNumber {
    pub fn first() -> LineNumber
        ensures { result.number ≡ 1 }
    {
        LineNumber { number: 1 }
    }

    // None where there is no such line.
    pub fn new(number: u32) -> Option<LineNumber>
        ensures none { IfNone result ((1 ≤ number) × (number ≤ 400) → ⊥) }
        ensures number { IfSome result (λ n. n.number ≡ number) }
    {
        if !(1..=LINES).contains(&(number as usize)) {
            return None;
        }
        Some(LineNumber { number })
    }

    pub fn number(self) -> u32
        ensures { result ≡ self.number }
    {
        self.number
    }

    // Where its line stands in the memory, from 0.
    pub fn index(self) -> usize
        ensures at { result ≡ self.number - 1 }
        ensures inside { result < 400 }
    {
        self.number as usize - 1
    }
}
