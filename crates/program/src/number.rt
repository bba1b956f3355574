// The number of a program line.
ghost use Rattle.std.specs.Prelude.{◌≤◌};

pub mod lines;

// From 1 to 400.
#[derive(Clone, Copy, PartialEq, Eq, Debug)]
pub struct LineNumber {
    number: u32,
    ghost least: { 1 ≤ number },
    ghost most: { number ≤ 400 },
}
