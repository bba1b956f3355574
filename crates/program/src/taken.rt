// A line that was taken.
use crate::number::LineNumber;
use orders::order::Order;

#[derive(Clone, Copy, PartialEq, Eq, Debug)]
pub struct Taken {
    pub order: Order,
    // The program line that the order names, or the pointer's.
    pub line: LineNumber,
}
