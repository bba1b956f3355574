// Stores a line's words as they are read.
ghost use Rattle.std.specs.Prelude.{◌≡◌, ◌-◌, false, length as len, IfOk, Ok};
ghost use Rattle.words.specs.Listing.{words};
ghost use Rattle.orders.specs.Lines.{heard_of, and_then};
ghost use Rattle.orders.specs.Orders.{order};
ghost use Rattle.program.specs.Memories.{waits, judged, stored_at, put_back, NumberedOr, Aims};

use crate::clearing::UNPROGRAMMED;
use crate::fault::OrderFault;
use crate::guard::Guard;
use crate::number::LineNumber;
use orders::fault::WordFault;
use orders::heard::{Fields, Heard};
use orders::hearing::Hearing;
use orders::order::Order;
use settings::values::Settings;
use words::reader::Reader;

// Each word's field goes into the line as it is heard; where a word is wrong the line is left half written.
fn hear_into(line: &mut Fields, reader: Reader<'_>, settings: &Settings) -> Result<Heard, WordFault>
    ensures said { result ≡ heard_of settings.now.resolution false (words reader.entry.length reader.entry.rest.now) }
    ensures fields { IfOk result (λ h. line.new ≡ h.fields) }
{
    let mut hearing = Hearing::new(reader, false);
    *line = UNPROGRAMMED;
    while hearing.word(settings)? {
        *line = hearing.heard().fields;
    }
    Ok(hearing.heard())
}

fn must_wait(order: Order) -> bool
    ensures { result ≡ waits order }
{
    matches!(
        order,
        Order::Point { .. } | Order::Store { .. } | Order::Set { .. }
    )
}

// A busy board refuses what has to wait.
fn judge(busy: bool, order: Order) -> Result<Order, OrderFault>
    ensures { result ≡ judged busy (Ok order) }
{
    if busy && must_wait(order) {
        return Err(OrderFault::Busy);
    }
    Ok(order)
}

// What is put back of a line after an order: nothing where that stores the line.
fn put_back(order: Order, old: Fields) -> Option<Fields>
    ensures { result ≡ put_back order old }
{
    match order {
        Order::Store { .. } => None,
        _ => Some(old),
    }
}

// Stores the words at this line, if that is what they order and the board is not busy; else the line is put back.
pub fn store_words(
    lines: &mut [Fields],
    at: LineNumber,
    reader: Reader<'_>,
    settings: &Settings,
    busy: bool,
) -> Result<Order, OrderFault>
    requires { len lines.old ≡ 400 }
    ensures order { result ≡ judged busy (and_then (heard_of settings.now.resolution false (words reader.entry.length reader.entry.rest.now)) (λ h. Ok (order h))) }
    ensures lines { lines.new ≡ stored_at (at.number - 1) result lines.old }
{
    let i = at.index();
    let old = lines[i];
    let mut guard = Guard {
        line: &mut lines[i],
        old: Some(old),
    };
    let heard = hear_into(guard.line, reader, settings)?;
    let order = judge(busy, heard.order())?;
    guard.old = put_back(order, old);
    Ok(order)
}

// The line of this number, where there is a number and such a line; else the pointer's.
fn line_or(number: Option<u32>, pointer: LineNumber) -> LineNumber
    ensures { NumberedOr number pointer.number result.number }
{
    number.and_then(LineNumber::new).unwrap_or(pointer)
}

// The line that the words name, where they are accepted and name one; else the pointer's.
pub fn target_of(reader: Reader<'_>, pointer: LineNumber, settings: &Settings) -> LineNumber
    ensures { Aims settings.now.resolution reader.entry.length reader.entry.rest.now pointer.number result.number }
{
    let mut hearing = Hearing::new(reader, false);
    match hearing.word(settings) {
        Ok(_) => line_or(hearing.heard().line, pointer),
        Err(_) => pointer,
    }
}
