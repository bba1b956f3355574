// The first byte of a line that opens no word where one has to.
ghost use Rattle.words.specs.Checking.{Checked};

use crate::reader::Reader;
use crate::word::ByteFault;

// Sought over the whole line before any word is looked at.
pub fn check(mut reader: Reader<'_>) -> Result<(), ByteFault>
    ensures { Checked reader.entry.length reader.entry.rest.now result }
{
    while reader.word()?.is_some() {}
    Ok(())
}
