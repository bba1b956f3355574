// What can be wrong with a word.
ghost use Rattle.std.specs.Prelude.{◌≡◌};
ghost use Rattle.words.specs.Words.{spelled};
ghost use Rattle.orders.specs.Meanings.{missing, foreign, any_field, unnamed, is_transfer, takes, outside};

use crate::heard::{Fields, Heard};
use crate::numbers::{data, is_home};
use codes::coded::Coded;
use codes::host::HostCode;
use codes::program::ProgramCode;
use scan::field::Field;
use settings::parameter::Parameter;
use settings::values::Settings;
use words::word::Word;

// Program lines count from 1 to this.
// Not program's own count, which is above this crate, and each has an edit that breaks it.
const LINES: u32 = 400;

// Digits are missing, or the sign of a home direction.
pub fn is_missing(word: Word<'_>) -> bool
    ensures { result ≡ missing (spelled word.entry) }
{
    match word {
        Word::N { digits, .. }
        | Word::G { digits, .. }
        | Word::X { digits, .. }
        | Word::F { digits, .. }
        | Word::H { digits, .. } => digits.is_empty(),
        Word::L {
            code,
            sign,
            digits,
            ..
        } => {
            if code.is_empty() {
                return true;
            }
            if is_home(code) {
                return sign.is_none();
            }
            digits.is_empty()
        }
    }
}

impl Fields {
    pub fn any(&self) -> bool
        ensures { result ≡ any_field self.now }
    {
        self.code.is_some() || self.x.is_some() || self.feed.is_some()
    }
}

// Whether a word cannot stand where it does, in a line that names a program line or not.
pub fn is_foreign(named: bool, heard: &Heard, word: Word<'_>) -> bool
    ensures { result ≡ foreign named heard.now (spelled word.entry) }
{
    if heard.setting.is_some() || heard.host.is_some() {
        return true;
    }
    let before = named && heard.line.is_none();
    match word {
        Word::N { .. } => heard.line.is_some(),
        Word::G { .. } => heard.fields.code.is_some() || before,
        Word::X { .. } => heard.fields.x.is_some() || before,
        Word::F { .. } => heard.fields.feed.is_some() || before,
        Word::L { .. } => heard.line.is_some() || heard.fields.any() || before,
        Word::H { .. } => heard.fields.any() || before,
    }
}

fn asks(code: Option<HostCode>) -> bool
    ensures { result ≡ is_transfer code }
{
    code.is_some_and(|code| code.is_transfer())
}

// Whether a word's code is none, or no transfer behind `!`.
pub fn is_unnamed(bang: bool, word: Word<'_>) -> bool
    ensures { result ≡ unnamed bang (spelled word.entry) }
{
    if bang {
        return match word {
            Word::H { digits, .. } => !asks(HostCode::coded(digits.value(Field::Code))),
            _ => true,
        };
    }
    match word {
        Word::G { digits, .. } => ProgramCode::coded(digits.value(Field::Code)).is_none(),
        Word::H { digits, .. } => HostCode::coded(digits.value(Field::Code)).is_none(),
        Word::L { code, .. } => Parameter::coded(code.value(Field::Code)).is_none(),
        _ => false,
    }
}

// Whether the parameter takes the number.
fn takes(settings: &Settings, parameter: Option<Parameter>, number: i32) -> bool
    ensures { result ≡ takes settings.now.resolution parameter number }
{
    parameter.is_some_and(|parameter| settings.takes(parameter, number))
}

// Whether there is no such program line, or the parameter does not take the number.
pub fn is_outside(settings: &Settings, word: Word<'_>) -> bool
    ensures { result ≡ outside settings.now.resolution (spelled word.entry) }
{
    match word {
        Word::N { digits, .. } => { !(1..=LINES).contains(&digits.value(Field::Line)) }
        Word::L {
            code,
            sign,
            digits,
            ..
        } => {
            let number = data(code, sign, digits);
            !takes(settings, Parameter::coded(code.value(Field::Code)), number)
        }
        _ => false,
    }
}
