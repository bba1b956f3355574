// Reads a host line.
ghost use Rattle.std.specs.Prelude.{◌≡◌, true, IfOk};
ghost use Rattle.orders.specs.Laws.{FirstByteLaw, BlankLaw};
ghost use Rattle.orders.specs.Starts.{Opened};
ghost use Rattle.orders.specs.Widths.{Narrow};
ghost use Rattle.orders.specs.Orders.{of_transfer, wordless, reading};

use crate::fault::WordFault;
use crate::order::Order;
use crate::start::Start;
use crate::telling::told;
use settings::values::Settings;
use words::bytes::check;
use words::kind::{Line, kind};
use words::reader::Reader;

fn transfer_of(reader: Reader<'_>, settings: &Settings) -> Result<Order, WordFault>
    ensures order { result ≡ of_transfer settings.now.resolution reader.entry.length reader.entry.rest.now }
    ensures wordless { IfOk result (λ o. wordless o ≡ true) }
{
    check(reader)?;
    told(reader, true, settings)?.transfer()
}

// Looks at a line's bytes; words are left to be heard.
pub fn open<'a>(line: &'a [u8], settings: &Settings) -> Result<Start<'a>, WordFault>
    ensures { Opened settings.now.resolution line.now result }
{
    match kind(line)? {
        Line::Clear => Ok(Start::Order(Order::Clear)),
        Line::Hold => Ok(Start::Order(Order::Hold)),
        Line::Stop => Ok(Start::Order(Order::Stop)),
        Line::Transfer { reader } => Ok(Start::Order(transfer_of(reader, settings)?)),
        Line::Words { reader } => {
            check(reader)?;
            Ok(Start::Words { reader })
        }
    }
}

// Tried as one with `read`: the laws stayed open at four ways out, where the call of this gives them one value to speak of.
fn by_kind(line: &[u8], settings: &Settings) -> Result<Order, WordFault>
    ensures { result ≡ reading settings.now.resolution line.now }
{
    match open(line, settings)? {
        Start::Order(order) => Ok(order),
        Start::Words { reader } => Ok(told(reader, false, settings)?.order()),
    }
}

// The one order of a line of any bytes, or the first thing that is wrong with it.
pub fn read(line: &[u8], settings: &Settings) -> Result<Order, WordFault>
    ensures order { result ≡ reading settings.now.resolution line.now }
    ensures widths { Narrow result }
    ensures first { FirstByteLaw settings.now.resolution line.now }
    ensures blanks { BlankLaw settings.now.resolution line.now }
{
    by_kind(line, settings)
}
