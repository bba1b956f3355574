// Clears a program line.
ghost use Rattle.std.specs.Prelude.{◌≡◌, ◌↔◌, ◌-◌, length, IsOk, IfErr, OnOk, OnErr, slice_set};
ghost use Rattle.program.specs.Memories.{unprogrammed};
ghost use Rattle.program.specs.declared.fault.OrderFault.TheVariants.{Memory};

use crate::fault::OrderFault;
use crate::number::LineNumber;
use crate::number::lines::LINES;
use orders::heard::Fields;

// A line with no field.
pub const UNPROGRAMMED: Fields = Fields::NONE;

// Unless the memory is not 400 lines, and then nothing changes.
pub fn clear(lines: &mut [Fields], line: LineNumber) -> Result<(), OrderFault>
    ensures memory { IsOk result ↔ (length lines.old ≡ 400) }
    ensures cleared { OnOk result (lines.new ≡ slice_set lines.old (line.number - 1) unprogrammed) }
    ensures refused { IfErr result (λ e. e ≡ Memory) }
    ensures unchanged { OnErr result (lines.new ≡ lines.old) }
{
    if lines.len() != LINES {
        return Err(OrderFault::Memory);
    }
    lines[line.index()] = UNPROGRAMMED;
    Ok(())
}
