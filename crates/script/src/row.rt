// What a row asks for.
use crate::mistake::Mistake;
use axis::direction::Direction;
use layers::allowance::Allowance;
use scan::number::number;
use scan::words::Words;

// So much can be lent, in bytes or in lines.
const MOST: u32 = 4096;

// The axis that a run is made on, by its layers from the top.
#[derive(Clone, Copy, PartialEq, Eq, Debug)]
pub enum Pile {
    Pin,
    Phase,
    ReversedPin,
    ReversedPhase,
    FencePin(Allowance),
    FenceReversedPhase(Allowance),
    FenceFencePin { outer: Allowance, inner: Allowance },
    Standard(Allowance),
}

// The numbers that a move's ramp depends on, not held to their ranges.
#[derive(Clone, Copy, PartialEq, Eq, Debug)]
pub enum Pace {
    Low {
        low: u32,
    },
    High {
        low: u32,
        acceleration: u32,
        speed: u32,
    },
}

#[derive(Clone, Copy, PartialEq, Eq, Debug)]
pub enum Row {
    // A remark, or an empty row.
    Remark,
    Axis(Pile),
    Windings { on: bool },
    Pulse { way: Direction, count: u32 },
    Drive,
    // A move of so many pulses, from rest to rest.
    Ramp { pace: Pace, count: u32 },
    // A host line to be read, or to be taken.
    Read(Form),
    Line(Form),
    // So many bytes of answer memory, or program lines lent, from now on.
    Room(u32),
    Lend(u32),
}

// How a host line stands in its row.
#[derive(Clone, Copy, PartialEq, Eq, Debug)]
pub enum Form {
    Text,
    // Two hexadecimal digits a byte.
    Hex,
}

pub fn read(row: &[u8]) -> Result<Row, Mistake> {
    let mut words = Words::new(row);
    let Some(name) = words.next() else {
        return Ok(Row::Remark);
    };
    if let [b'-', b'-', ..] = name {
        return Ok(Row::Remark);
    }
    let name = text(name).ok_or(Mistake::Unknown)?;
    let meant = match name {
        "axis" => Row::Axis(chosen(&mut words)?),
        "windings" => Row::Windings {
            on: switch(&mut words)?,
        },
        "pulse" => pulse(&mut words)?,
        "drive" => Row::Drive,
        "ramp" => ramp(&mut words)?,
        "read" => return Ok(Row::Read(Form::Text)),
        "read-hex" => return Ok(Row::Read(Form::Hex)),
        "line" => return Ok(Row::Line(Form::Text)),
        "hex" => return Ok(Row::Line(Form::Hex)),
        "room" => Row::Room(memory(&mut words)?),
        "lend" => Row::Lend(memory(&mut words)?),
        _ => return Err(Mistake::Unknown),
    };
    match words.next() {
        None => Ok(meant),
        Some(_) => Err(Mistake::Extra),
    }
}

fn amount(words: &mut Words) -> Result<u32, Mistake> {
    whole(words.next())
}

fn whole(word: Option<&[u8]>) -> Result<u32, Mistake> {
    word.and_then(number).ok_or(Mistake::Number)
}

fn memory(words: &mut Words) -> Result<u32, Mistake> {
    words
        .next()
        .and_then(number)
        .filter(|size| *size <= MOST)
        .ok_or(Mistake::Memory)
}

fn pulse(words: &mut Words) -> Result<Row, Mistake> {
    let way = way(words)?;
    let count = match words.next() {
        None => 1,
        digits => whole(digits)?,
    };
    Ok(Row::Pulse { way, count })
}

fn ramp(words: &mut Words) -> Result<Row, Mistake> {
    let first = words.next();
    let pace = match first.and_then(text) {
        Some("low") => Pace::Low {
            low: amount(words)?,
        },
        _ => climb(whole(first)?, words)?,
    };
    let count = amount(words)?;
    Ok(Row::Ramp { pace, count })
}

fn climb(low: u32, words: &mut Words) -> Result<Pace, Mistake> {
    let acceleration = amount(words)?;
    let speed = amount(words)?;
    Ok(Pace::High {
        low,
        acceleration,
        speed,
    })
}

fn way(words: &mut Words) -> Result<Direction, Mistake> {
    match next_name(words) {
        Some("cw") => Ok(Direction::Clockwise),
        Some("ccw") => Ok(Direction::Counterclockwise),
        _ => Err(Mistake::Way),
    }
}

fn switch(words: &mut Words) -> Result<bool, Mistake> {
    match next_name(words) {
        Some("on") => Ok(true),
        Some("off") => Ok(false),
        _ => Err(Mistake::Switch),
    }
}

fn read_allowance(words: &mut Words) -> Result<Allowance, Mistake> {
    let down = amount(words)?;
    let up = amount(words)?;
    Ok(Allowance { down, up })
}

fn chosen(words: &mut Words) -> Result<Pile, Mistake> {
    match next_name(words) {
        Some("pin") => Ok(Pile::Pin),
        Some("phase") => Ok(Pile::Phase),
        Some("reversed") => reversed(words),
        Some("fence") => fenced(words),
        Some("standard") => Ok(Pile::Standard(read_allowance(words)?)),
        _ => Err(Mistake::Pile),
    }
}

fn reversed(words: &mut Words) -> Result<Pile, Mistake> {
    match next_name(words) {
        Some("pin") => Ok(Pile::ReversedPin),
        Some("phase") => Ok(Pile::ReversedPhase),
        _ => Err(Mistake::Pile),
    }
}

fn fenced(words: &mut Words) -> Result<Pile, Mistake> {
    let outer = read_allowance(words)?;
    match next_name(words) {
        Some("pin") => Ok(Pile::FencePin(outer)),
        Some("reversed") => fenced_reversed(outer, words),
        Some("fence") => fenced_twice(outer, words),
        _ => Err(Mistake::Pile),
    }
}

fn fenced_reversed(outer: Allowance, words: &mut Words) -> Result<Pile, Mistake> {
    match next_name(words) {
        Some("phase") => Ok(Pile::FenceReversedPhase(outer)),
        _ => Err(Mistake::Pile),
    }
}

fn fenced_twice(outer: Allowance, words: &mut Words) -> Result<Pile, Mistake> {
    let inner = read_allowance(words)?;
    match next_name(words) {
        Some("pin") => Ok(Pile::FenceFencePin { outer, inner }),
        _ => Err(Mistake::Pile),
    }
}

fn next_name<'a>(words: &mut Words<'a>) -> Option<&'a str> {
    words.next().and_then(text)
}

// A word that is no text is no name either.
fn text(word: &[u8]) -> Option<&str> {
    std::str::from_utf8(word).ok()
}
