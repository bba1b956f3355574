// Runs a bench script from standard input on the axis that it names, and prints what each row did.
#![tactic(auto)]

mod desk;
mod lent;
mod session;
mod travel;
#[cfg(test)]
mod worksheet;

use anyhow::anyhow;
use axis::display::Drive;
use axis::interface::Axis;
use layers::allowance::Allowance;
use layers::fence::Fence;
use layers::reversed::Reversed;
use phase::drive::PhaseAxis;
use piles::shipped::{fenced_phase, standard};
use pin::drive::PinAxis;
use script::fault::Fault;
use script::row::{Pile, Row};
use script::source::Source;
use session::Session;
use std::alloc::Global;
use std::io::{BufWriter, Read, Write};
use std::{env, io};

const HELP: &str = "bench: runs a bench script from standard input and prints what each row did

  axis PILE           first, or not at all: pin, phase, reversed pin, reversed phase, fence D U pin,
                      fence D U reversed phase, fence D U fence D U pin, or standard D U
                      (standard 1000000000 1000000000 where there is no such row)
  windings on|off     switches the windings
  pulse cw|ccw [N]    N pulses (1) one way, and how many were taken
  drive               the two counts of a pin axis, or the coils of a phase axis
  ramp L A V N        the pulses of a move of N, from rest to rest: a row each of number, level, rate,
                      wait and ticks since the first; then its highest rate and whole time
  ramp low L N        the same at low speed
  read TEXT           reads a host line, all that stands behind the one blank, and tells what it orders,
                      or why it is refused and at which byte
  read-hex HH ..      the same for any bytes, two hexadecimal digits each
  line TEXT           takes a host line, and prints its answer, silent, or why it is refused and at
                      which byte; what needs motion is answered: not yet
  hex HH ..           the same for any bytes
  room N              N bytes of memory for the answers after it (64)
  lend N              N program lines lent to the lines after it (400, the program; any other number
                      lends so many lines that are not programmed)
  -- anything         a remark; empty rows are passed over

A row that cannot be read is answered with its number and what is wrong, and the run goes on.";

// The widest fence, where the script names no axis.
const WIDE: Allowance = Allowance {
    down: 1_000_000_000,
    up: 1_000_000_000,
};

fn main(rt: HostRuntime) -> anyhow::Result<()> {
    run(&rt)
}

fn run(rt: &HostRuntime) -> anyhow::Result<()> {
    let mut words = env::args(rt)?.skip(1);
    if let Some(first) = words.next() {
        if first.as_str() != "--help" || words.any(|word| word.as_str() != "--help") {
            return Err(anyhow!("no such argument: there is --help"));
        }
        println!(rt; "{HELP}")?;
        return Ok(());
    }
    let mut source = Source::new(rt.alloc(), rt.stdin())?;
    let mut out = BufWriter::new(rt.alloc(), rt.stdout())?;
    begin(rt.alloc(), &mut source, &mut out)?;
    out.flush()?;
    Ok(())
}

// Makes the axis that the first row names, and does the other rows on it.
fn begin<I: Read + Drop, O: Write>(
    heap: Global,
    source: &mut Source<I>,
    out: &mut O,
) -> io::Result<()> {
    let mut first = source.next();
    // Counted: a loop with no bound wants a handle that waits, and none is allowed.
    for _ in 0..u64::MAX {
        match first {
            Ok(Some(Row::Remark)) => first = source.next(),
            _ => break,
        }
    }
    let (pile, first) = match first {
        Ok(Some(Row::Axis(pile))) => (pile, source.next()),
        other => (Pile::Standard(WIDE), other),
    };
    let rows = Rows {
        heap,
        first,
        source,
        out,
    };
    match pile {
        Pile::Pin => rows.on(PinAxis::new()),
        Pile::Phase => rows.on(PhaseAxis::new()),
        Pile::ReversedPin => rows.on(Reversed::new(PinAxis::new())),
        Pile::ReversedPhase => rows.on(Reversed::new(PhaseAxis::new())),
        Pile::FencePin(far) => rows.on(Fence::new(PinAxis::new(), far)),
        Pile::FenceReversedPhase(far) => rows.on(fenced_phase(far)),
        Pile::FenceFencePin { outer, inner } => {
            rows.on(Fence::new(Fence::new(PinAxis::new(), inner), outer))
        }
        Pile::Standard(far) => rows.on(standard(far)),
    }
}

// The rows of a script whose axis is known, the first of them in hand.
struct Rows<'a, I, O> {
    heap: Global,
    first: Result<Option<Row>, Fault>,
    source: &'a mut Source<I>,
    out: &'a mut O,
}

impl<I: Read + Drop, O: Write> Rows<'_, I, O> {
    fn on<A: Axis + Drive + Drop>(self, mut axis: A) -> io::Result<()> {
        let Rows {
            heap,
            first,
            source,
            out,
        } = self;
        let mut session = Session::new::<A>(heap)?;
        let mut next = first;
        // Counted: a loop with no bound wants a handle that waits, and none is allowed.
        for _ in 0..u64::MAX {
            let done = match next {
                Ok(None) => break,
                Ok(Some(row)) => session.perform(&mut axis, row, source.line(), out),
                Err(fault) => Err(fault),
            };
            match done {
                Ok(()) => {}
                Err(Fault::Mistake(mistake)) => {
                    writeln!(out, "row {}: {mistake}", source.number())?;
                }
                Err(Fault::Io(error)) => return Err(error),
            }
            next = source.next();
        }
        Ok(())
    }
}
