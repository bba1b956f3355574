// The rows of a script, done one after the other on an axis of any kind.
use crate::desk::Desk;
use crate::lent::Lent;
use crate::travel::show_move;
use axis::display::Drive;
use axis::interface::Axis;
use axis::stroke::stroke;
use clerk::settle;
use orders::reading::read;
use ramp::mode::SpeedMode;
use ramp::shape::Ramp;
use script::fault::Fault;
use script::mistake::Mistake;
use script::row::{Pace, Row};
use std::alloc::{AllocError, Global};
use std::io;
use std::io::Write;

#[derive(Drop)]
pub struct Session {
    desk: Desk,
    lent: Lent,
}

impl Session {
    pub fn new<A: Axis>(heap: Global) -> Result<Session, AllocError> {
        Ok(Session {
            desk: Desk::new::<A>(),
            lent: Lent::new(heap)?,
        })
    }

    // Does what a row asks for; where the row has a host line, that is `line`.
    // The axis is no field of the session: as one it would be kept in memory, and a pulse of the standard pile would take over half as long again.
    pub fn perform<A: Axis + Drive, O: Write>(
        &mut self,
        axis: &mut A,
        row: Row,
        line: &[u8],
        out: &mut O,
    ) -> Result<(), Fault> {
        match row {
            Row::Remark => {}
            Row::Axis(_) => return Err(Fault::Mistake(Mistake::LateAxis)),
            Row::Windings { on } => {
                axis.set_windings(on);
                writeln!(out, "windings {}", if axis.is_on() { "on" } else { "off" })?;
            }
            Row::Pulse { way, count } => {
                let taken = stroke(axis, way, count);
                writeln!(out, "taken {taken} of {count}")?;
            }
            Row::Drive => {
                let shown = axis.shown();
                writeln!(out, "{shown}")?;
            }
            Row::Ramp { pace, count } => {
                show_move(ramp_of(pace).ok_or(Mistake::Ramp)?, count, out)?;
            }
            Row::Read(_) => match read(line, self.desk.settings()) {
                Ok(order) => writeln!(out, "{order}")?,
                Err(fault) => writeln!(out, "{fault}")?,
            },
            Row::Line(_) => self.take(line, out)?,
            Row::Room(count) => self.lent.room(count as usize)?,
            Row::Lend(count) => self.lent.lend(count as usize)?,
        }
        Ok(())
    }

    // The answer to a line, without its carriage return and line feed.
    fn take<O: Write>(&mut self, line: &[u8], out: &mut O) -> io::Result<()> {
        let Some(slip) = self.desk.line(self.lent.lines(), line) else {
            return writeln!(out, "not yet");
        };
        match settle(slip, self.lent.answer()) {
            Ok(0) => writeln!(out, "silent"),
            Ok(count) => {
                out.write_all(b"answer ")?;
                if let Some(text) = self.lent.answer().get(..count.saturating_sub(2)) {
                    out.write_all(text)?;
                }
                writeln!(out, "")
            }
            Err(refusal) => writeln!(out, "{refusal}"),
        }
    }
}

fn ramp_of(pace: Pace) -> Option<Ramp> {
    match pace {
        // At low speed neither acceleration nor speed counts.
        Pace::Low { low } => Ramp::new(SpeedMode::Low, low, 1, 1),
        Pace::High {
            low,
            acceleration,
            speed,
        } => Ramp::new(SpeedMode::High, low, acceleration, speed),
    }
}
