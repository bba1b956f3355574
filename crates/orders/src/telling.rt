// What the words of a line say together.
ghost use Rattle.std.specs.Prelude.{◌≡◌};
ghost use Rattle.words.specs.Listing.{words};
ghost use Rattle.orders.specs.Lines.{heard_of};

use crate::fault::WordFault;
use crate::heard::Heard;
use crate::hearing::Hearing;
use settings::values::Settings;
use words::reader::Reader;

// Up to the first word that something is wrong with; behind `!` or not.
pub(crate) fn told(reader: Reader<'_>, bang: bool, settings: &Settings) -> Result<Heard, WordFault>
    ensures { result ≡ heard_of settings.now.resolution bang (words reader.entry.length reader.entry.rest.now) }
{
    let mut hearing = Hearing::new(reader, bang);
    while hearing.word(settings)? {}
    Ok(hearing.heard())
}
