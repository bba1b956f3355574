// Takes a host line, over the program memory.
ghost use Rattle.std.specs.Prelude.{◌≡◌, if◌then◌else◌, IfOk, Ok, Err, MatchResult};
ghost use Rattle.program.specs.Memories.{taken, stored, line_of, addressed};

use crate::fault::OrderFault;
use crate::number::LineNumber;
use crate::number::lines::LINES;
use crate::storing::{store_words, target_of};
use crate::taken::Taken;
use orders::heard::Fields;
use orders::order::Order;
use orders::reading::open;
use orders::start::Start;
use settings::values::Settings;

// Of the orders that may name a line it is that line, of the others the pointer's.
fn line_about(order: Order, named: LineNumber, pointer: LineNumber) -> LineNumber
    ensures { result.number ≡ (if addressed order then named.number else pointer.number) }
{
    match order {
        Order::Point { .. } | Order::Store { .. } | Order::Act { .. } => named,
        _ => pointer,
    }
}

// The order of a line, its fields stored if that is what it orders; refused, no line of the memory has changed.
pub fn take(
    lines: &mut [Fields],
    pointer: LineNumber,
    line: &[u8],
    settings: &Settings,
    busy: bool,
) -> Result<Taken, OrderFault>
    ensures order { MatchResult result (λ t. taken settings.now.resolution busy lines.old line.now ≡ Ok t.order) (λ e. taken settings.now.resolution busy lines.old line.now ≡ Err e) }
    ensures line { IfOk result (λ t. t.line.number ≡ line_of t.order pointer.number) }
    ensures lines { lines.new ≡ stored (taken settings.now.resolution busy lines.old line.now) pointer.number lines.old }
{
    if lines.len() != LINES {
        return Err(OrderFault::Memory);
    }
    match open(line, settings)? {
        Start::Order(order) => Ok(Taken {
            order,
            line: pointer,
        }),
        Start::Words { reader } => {
            let named = target_of(reader, pointer, settings);
            let order = store_words(lines, named, reader, settings, busy)?;
            Ok(Taken {
                order,
                line: line_about(order, named, pointer),
            })
        }
    }
}
