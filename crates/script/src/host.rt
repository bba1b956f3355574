// The bytes of a host line, as a row gives them.
ghost use Rattle.std.specs.Prelude.{◌<◌, IfSome};

use crate::fault::Fault;
use crate::mistake::Mistake;
use crate::row::Form;
use scan::words::Words;

// Without the one blank before it, and the carriage return that some hosts put before the line feed.
fn typed(behind: &[u8]) -> &[u8] {
    let line = behind.get(1..).unwrap_or(behind);
    line.strip_suffix(b"\r").unwrap_or(line)
}

fn hex_digit(byte: u8) -> Option<u32>
    ensures { IfSome result (λ n. n < 16) }
{
    char::from(byte).to_digit(16)
}

// The byte of a word of two hexadecimal digits.
fn hex_byte(word: &[u8]) -> Option<u8> {
    match word {
        [high, low] => Some((hex_digit(*high)? * 16 + hex_digit(*low)?) as u8),
        _ => None,
    }
}

// Makes `line` what stands behind the row's name.
pub fn fill(line: &mut Vec<u8>, row: &[u8], form: Form) -> Result<(), Fault> {
    line.clear();
    let mut words = Words::new(row);
    let _ = words.next();
    match form {
        Form::Text => line.extend_from_slice(typed(words.rest()))?,
        Form::Hex => {
            for word in words {
                line.push(hex_byte(word).ok_or(Mistake::Hex)?)?;
            }
        }
    }
    Ok(())
}
