// The order that words give together.
ghost use Rattle.std.specs.Prelude.{◌≡◌, true, IfOk};
ghost use Rattle.orders.specs.Orders.{order, transfer, wordless};

use crate::fault::WordFault;
use crate::heard::Heard;
use crate::order::Order;

// Where the `!` of a line stands.
const BANG: usize = 1;

impl Heard {
    pub fn order(self) -> Order
        ensures { result ≡ order self }
    {
        if let Some(setting) = self.setting {
            return Order::Set { setting };
        }
        if let Some(code) = self.host {
            return Order::Act {
                line: self.line,
                code,
            };
        }
        match self.line {
            Some(line) if !self.fields.any() => Order::Point { line },
            line => Order::Store {
                line,
                fields: self.fields,
            },
        }
    }

    // Behind `!` there is a transfer.
    pub(crate) fn transfer(self) -> Result<Order, WordFault>
        ensures transfer { result ≡ transfer self }
        ensures wordless { IfOk result (λ o. wordless o ≡ true) }
    {
        let code = self.host.ok_or(WordFault::NoCode { place: BANG })?;
        Ok(Order::Transfer { code })
    }
}
