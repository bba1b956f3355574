// What the words of a line have said so far.
ghost use Rattle.std.specs.Prelude.{Some};
ghost use Rattle.orders.specs.Printed.{printed_setting, printed_fields};

use codes::coded::Coded;
use codes::host::HostCode;
use codes::program::ProgramCode;
use settings::parameter::Parameter;
use std::fmt;

// A parameter and the number for it; of the home direction the number has the sign alone.
#[derive(Clone, Copy, PartialEq, Eq, Debug)]
pub struct Setting {
    pub parameter: Parameter,
    pub number: i32,
}

// The fields of a program line.
#[derive(Clone, Copy, PartialEq, Eq, Debug)]
pub struct Fields {
    pub code: Option<ProgramCode>,
    pub x: Option<i32>,
    pub feed: Option<u32>,
}

impl Fields {
    // Of a line with no field.
    pub const NONE: Fields = Fields {
        code: None,
        x: None,
        feed: None,
    };
}

#[derive(Clone, Copy, PartialEq, Eq, Debug)]
pub struct Heard {
    pub line: Option<u32>,
    pub fields: Fields,
    pub setting: Option<Setting>,
    pub host: Option<HostCode>,
}

impl fmt::Display for Setting {
    ghost output = { λ setting. Some (printed_setting setting) };

    fn fmt<W: fmt::Write>(&self, f: &mut fmt::Formatter<W>) -> fmt::Result {
        let code = self.parameter.code();
        if self.parameter == Parameter::HomeDirection {
            let sign = if self.number < 0 { "-" } else { "+" };
            return write!(f, "set L{code:02} to {sign}");
        }
        write!(f, "set L{code:02} to {}", self.number)
    }
}

// A blank stands before each field.
impl fmt::Display for Fields {
    ghost output = { λ fields. Some (printed_fields fields) };

    fn fmt<W: fmt::Write>(&self, f: &mut fmt::Formatter<W>) -> fmt::Result {
        if let Some(code) = self.code {
            write!(f, " G{:02}", code.code())?;
        }
        if let Some(x) = self.x {
            write!(f, " X{x:+}")?;
        }
        if let Some(feed) = self.feed {
            write!(f, " F{feed}")?;
        }
        Ok(())
    }
}
