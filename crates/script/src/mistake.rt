// What can be wrong with a row.
use std::fmt;

#[derive(Clone, Copy, PartialEq, Eq, Debug)]
pub enum Mistake {
    Unknown,
    LateAxis,
    Pile,
    Number,
    Switch,
    Way,
    Ramp,
    Hex,
    Memory,
    Extra,
    Long,
}

impl fmt::Display for Mistake {
    fn fmt<W: fmt::Write>(&self, f: &mut fmt::Formatter<W>) -> fmt::Result {
        match self {
            Mistake::Unknown => f.write_str(
                "no such row; there are axis, windings, pulse, drive, ramp and --",
            ),
            Mistake::LateAxis => f.write_str("the axis is chosen before any other row"),
            Mistake::Pile => f.write_str(
                "no such axis; there are pin, phase, reversed pin, reversed phase, fence D U pin, fence D U reversed phase, fence D U fence D U pin and standard D U",
            ),
            Mistake::Number => f.write_str("a whole number from 0 to 4294967295 is wanted"),
            Mistake::Switch => f.write_str("windings are on or off"),
            Mistake::Way => f.write_str("a pulse goes cw or ccw"),
            Mistake::Ramp => f.write_str(
                "a ramp has L from 0 (from 1 at low speed) to 1875000, A from 1 to 99999999 and V from 1 to 1875000",
            ),
            Mistake::Hex => f.write_str("each byte has two hexadecimal digits, 00 to FF"),
            Mistake::Memory => f.write_str("a whole number from 0 to 4096 is wanted"),
            Mistake::Extra => f.write_str("something stands behind the row's last word"),
            Mistake::Long => f.write_str("over 4096 bytes"),
        }
    }
}
