// A line of which no byte is wrong.
use crate::order::Order;
use words::reader::Reader;

// An order already, or words that are still to be heard.
#[derive(Clone, Copy, PartialEq, Eq, Debug)]
pub enum Start<'a> {
    Order(Order),
    Words { reader: Reader<'a> },
}
