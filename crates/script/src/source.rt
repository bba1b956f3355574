// Rows out of a stream of any bytes and any length, in memory of one row.
ghost use Rattle.std.specs.Prelude.{◌≡◌, ◌+◌, ◌-◌, ◌^◌, ◌≤◌, min, if◌then◌else◌, IfOk};
ghost use Rattle.script.specs.Rows.{counted};

use crate::fault::Fault;
use crate::host::fill;
use crate::mistake::Mistake;
use crate::row;
use crate::row::Row;
use std::alloc::{AllocError, Global};
use std::io;
use std::io::Read;

// A longer row is reported and passed over.
const LONGEST: usize = 4096;

#[derive(Drop)]
pub struct Source<R> {
    stream: R,
    // Kept by hand: an edit of must-fail/ breaks the bound of this chunk, which with the library's buffer would not be ours to prove.
    // What is not read yet stands from `at`, before `end`.
    chunk: [u8; 512],
    at: usize,
    end: usize,
    row: Vec<u8>,
    // The host line of the last row that has one.
    line: Vec<u8>,
    number: u64,
    ghost read: { at ≤ end },
    ghost held: { end ≤ 512 },
}

impl<R: Read + Drop> Source<R> {
    pub fn new(heap: Global, stream: R) -> Result<Source<R>, AllocError>
        ensures { IfOk result (λ s. s.number ≡ 0) }
    {
        Ok(Source {
            stream,
            chunk: [0; 512],
            at: 0,
            end: 0,
            row: Vec::with_capacity(heap, LONGEST + 1)?,
            line: Vec::with_capacity(heap, LONGEST)?,
            number: 0,
        })
    }

    // The number of the row read last, from 1.
    pub fn number(&self) -> u64
        ensures { result ≡ self.now.number }
    {
        self.number
    }

    // The next row, or none at the end of the stream; a row that is read or has a mistake is counted, once.
    pub fn next(&mut self) -> Result<Option<Row>, Fault>
        ensures { self.new.number ≡ (if counted result then min (self.old.number + 1) (2 ^ 64 - 1) else self.old.number) }
    {
        self.row.clear();
        let Some(mut byte) = self.byte()? else {
            return Ok(None);
        };
        // Counted: a loop with no bound wants a handle that waits, and none is allowed.
        for _ in 0..u64::MAX {
            if byte == b'\n' {
                break;
            }
            // One byte past the longest is kept, to tell that the row is too long.
            if self.row.len() <= LONGEST {
                self.row.push(byte)?;
            }
            let Some(next) = self.byte()? else {
                break;
            };
            byte = next;
        }
        let read = if self.row.len() > LONGEST {
            Err(Fault::Mistake(Mistake::Long))
        } else {
            self.meant()
        };
        if let Err(Fault::Io(error)) = read {
            return Err(Fault::Io(error));
        }
        self.number = self.number.saturating_add(1);
        Ok(Some(read?))
    }

    // What the row asks for; where it has a host line, that is kept.
    fn meant(&mut self) -> Result<Row, Fault>
        ensures { self.new.number ≡ self.old.number }
    {
        let row = row::read(self.row.as_slice())?;
        if let Row::Read(form) | Row::Line(form) = row {
            fill(&mut self.line, self.row.as_slice(), form)?;
        }
        Ok(row)
    }

    // The host line of the row read last, where that has one.
    pub fn line(&self) -> &[u8] {
        self.line.as_slice()
    }

    fn byte(&mut self) -> io::Result<Option<u8>>
        ensures { self.new.number ≡ self.old.number }
    {
        if self.at == self.end {
            self.at = 0;
            self.end = 0;
            let n = self.stream.read(&mut self.chunk)?;
            if n == 0 {
                return Ok(None);
            }
            self.end = n;
        }
        let byte = self.chunk[self.at];
        self.at += 1;
        Ok(Some(byte))
    }
}
