// The words of a line, heard one after the other. The settings are handed to each step: held here they would be borrowed as long as the line,
// and each clause on a step would have to say that they stay.
use crate::heard::Heard;
use words::reader::Reader;

pub mod steps;

#[derive(Drop)]
pub struct Hearing<'a> {
    reader: Reader<'a>,
    // Whether one of the line's words is N.
    named: bool,
    // Whether the words stand behind `!`.
    bang: bool,
    heard: Heard,
}
