// Takes the host lines that need no motion.
ghost use Rattle.std.specs.Prelude.{◌≡◌, false, IfSome};
ghost use Rattle.settings.specs.Values.{Started};

use axis::interface::Axis;
use codes::host::HostCode;
use orders::heard::Fields;
use orders::order::Order;
use program::clearing::clear;
use program::fault::OrderFault;
use program::number::LineNumber;
use program::taking::take;
use reply::answer::Answer;
use reply::sending::{send_line, send_parameter, send_pointer};
use reply::slip::Slip;
use settings::values::Settings;

#[derive(Drop)]
pub struct Desk {
    settings: Settings,
    pointer: LineNumber,
}

impl Desk {
    // At line 1, every parameter at its start.
    pub fn new<A: Axis>() -> Desk
        ensures pointer { result.pointer.number ≡ 1 }
        ensures settings { Started A.Axis.res result.settings }
    {
        Desk {
            settings: Settings::new::<A>(),
            pointer: LineNumber::first(),
        }
    }

    pub fn settings(&self) -> &Settings
        ensures { result.now ≡ self.now.settings }
    {
        &self.settings
    }

    // None for a line that cannot be taken yet.
    pub fn line(&mut self, lines: &mut [Fields], line: &[u8]) -> Option<Slip<OrderFault>>
        ensures { IfSome result (λ s. s.settled ≡ false) }
    {
        self.perform(lines, line).transpose().map(Slip::new)
    }

    // The answer to a line; none where it cannot be taken yet.
    fn perform(&mut self, lines: &mut [Fields], line: &[u8]) -> Result<Option<Answer>, OrderFault> {
        let taken = take(lines, self.pointer, line, &self.settings, false)?;
        match taken.order {
            Order::Point { .. } | Order::Store { .. } => {
                self.pointer = taken.line;
                Ok(Some(Answer::Nothing))
            }
            Order::Set { setting } => {
                // It was found in its range when the line was read.
                let _ = self.settings.set(setting.parameter, setting.number);
                Ok(Some(Answer::Nothing))
            }
            Order::Act { code, .. } | Order::Transfer { code } => self.act(code, taken.line, lines),
            _ => Ok(None),
        }
    }

    fn act(
        &mut self,
        code: HostCode,
        line: LineNumber,
        lines: &mut [Fields],
    ) -> Result<Option<Answer>, OrderFault> {
        let answer = match code {
            HostCode::ClearLine => {
                clear(lines, line)?;
                Answer::Nothing
            }
            HostCode::SendLine => send_line(lines, line),
            HostCode::SendPointer => send_pointer(line),
            HostCode::SendParameter => send_parameter(&self.settings),
            _ => return Ok(None),
        };
        self.pointer = line;
        Ok(Some(answer))
    }
}
