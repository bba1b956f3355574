// Settles the slip of a line that was taken, once.
#![tactic(auto)]

ghost use Rattle.std.specs.Prelude.{◌≡◌, false, length};
ghost use Rattle.clerk.specs.Tellings.{told, written};

use crate::refusal::Refusal;
use reply::slip::Slip;

pub mod card;
pub mod refusal;

// How many bytes the answer has at the front of its memory: a count, of which silence has none. A refused line tells its own refusal, whatever the memory.
pub fn settle<F: Copy>(mut slip: Slip<F>, out: &mut [u8]) -> Result<usize, Refusal<F>>
    requires { slip.settled ≡ false }
    ensures told { result ≡ told (length out.old) slip.outcome }
    ensures written { out.new ≡ written slip.outcome out.old }
{
    let refusal = slip.refusal();
    let settled = slip.settle(out);
    match refusal {
        Some(fault) => Err(Refusal::Line(fault)),
        None => Ok(settled?),
    }
}
