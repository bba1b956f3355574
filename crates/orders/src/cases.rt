// Worked cases of line numbers.
ghost use Rattle.std.specs.Prelude.{◌≡◌, Ok, Err, codes};
ghost use Rattle.orders.specs.Orders.{reading};
ghost use Rattle.orders.specs.declared.order.Order.TheVariants.{Point};
ghost use Rattle.orders.specs.declared.fault.WordFault.TheVariants.{OutOfRange};

use crate::fault::WordFault;
use crate::order::Order;
use crate::reading::read;
use settings::values::Settings;

// N1000 is cut to 000, so it is refused 8 as N401 is; N400 is the last line.
pub fn line_numbers(settings: &Settings) -> Result<Order, WordFault>
    ensures cut { reading settings.now.resolution (codes "N1000") ≡ Err (OutOfRange 1) }
    ensures past { reading settings.now.resolution (codes "N401") ≡ Err (OutOfRange 1) }
    ensures last { result ≡ Ok (Point 400) }
{
    read(b"N400", settings)
}
