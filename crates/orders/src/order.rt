// What a line orders.
ghost use Rattle.std.specs.Prelude.{Some};
ghost use Rattle.orders.specs.Printed.{printed_order};

use crate::heard::{Fields, Setting};
use codes::coded::Coded;
use codes::host::HostCode;
use std::fmt;

#[derive(Clone, Copy, PartialEq, Eq, Debug)]
pub enum Order {
    Clear,
    Hold,
    Stop,
    // Asked for behind `!`.
    Transfer { code: HostCode },
    // Sets the pointer to this line.
    Point { line: u32 },
    // Replaces this program line, or the pointer's.
    Store { line: Option<u32>, fields: Fields },
    Set { setting: Setting },
    // Does this, with the pointer set to the line first where there is one.
    Act { line: Option<u32>, code: HostCode },
}

impl fmt::Display for Order {
    ghost output = { λ order. Some (printed_order order) };

    fn fmt<W: fmt::Write>(&self, f: &mut fmt::Formatter<W>) -> fmt::Result {
        match *self {
            Order::Clear => f.write_str("clear"),
            Order::Hold => f.write_str("hold"),
            Order::Stop => f.write_str("stop"),
            Order::Transfer { code } => write!(f, "transfer H{:02}", code.code()),
            Order::Point { line } => write!(f, "set the pointer to line {line}"),
            Order::Store { line, fields } => match line {
                Some(line) => write!(f, "store at line {line}:{fields}"),
                None => write!(f, "store at the pointer's line:{fields}"),
            },
            Order::Set { setting } => write!(f, "{setting}"),
            Order::Act { line, code } => {
                write!(f, "do H{:02}", code.code())?;
                match line {
                    Some(line) => write!(f, " with line {line}"),
                    None => Ok(()),
                }
            },
        }
    }
}
