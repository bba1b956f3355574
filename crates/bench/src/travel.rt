// The pulses of a move, as a table.
use ramp::course::Course;
use ramp::shape::Ramp;
use std::io;
use std::io::Write;

const TICKS_PER_MS: u64 = 15_000;

// Each pulse of a move: number, level, rate, wait, and ticks since the first; then the move as a whole.
pub fn show_move<O: Write>(ramp: Ramp, count: u32, out: &mut O) -> io::Result<()> {
    let mut ticks = 0u64;
    let mut highest = 0;
    for (number, pulse) in (1..=count).zip(Course::new(ramp, count)) {
        let rate = pulse.rate.per_second();
        writeln!(
            out,
            "pulse {number} {} {rate} {} {ticks}",
            pulse.level, pulse.wait
        )?;
        ticks = ticks.saturating_add(u64::from(pulse.wait));
        highest = rate.max(highest);
    }
    writeln!(
        out,
        "highest rate {highest}, time {} ms, {ticks} ticks",
        ticks / TICKS_PER_MS
    )
}
