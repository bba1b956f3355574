// The kinds of host line.
ghost use Rattle.words.specs.Kinds.{IsKind};

use crate::reader::Reader;
use crate::runs::trimmed;
use crate::word::ByteFault;

// A line is at most this long.
const LONGEST: usize = 80;

#[derive(Clone, Copy, PartialEq, Eq, Debug)]
pub enum Line<'a> {
    Clear,
    Hold,
    Stop,
    // Over what stands behind `!`.
    Transfer { reader: Reader<'a> },
    // Over any other line, whole.
    Words { reader: Reader<'a> },
}

pub fn kind(line: &[u8]) -> Result<Line<'_>, ByteFault>
    ensures { IsKind line.now result }
{
    if line.len() > LONGEST {
        return Err(ByteFault::TooLong);
    }
    if trimmed(line).is_empty() {
        return Err(ByteFault::Blank);
    }
    match line {
        [b'*'] => Ok(Line::Clear),
        [b'$'] => Ok(Line::Hold),
        [b'#'] => Ok(Line::Stop),
        [b'!', rest @ ..] => Ok(Line::Transfer {
            reader: Reader::new(rest, line.len()),
        }),
        _ => Ok(Line::Words {
            reader: Reader::new(line, line.len()),
        }),
    }
}
