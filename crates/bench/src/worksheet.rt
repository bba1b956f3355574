// A worksheet as it is typed: read row by row, then taken by the board and listed back.
use crate::begin;
use script::source::Source;

const ROWS: &str = "\
-- A worksheet as it is typed: parameters first.
read L11 5000
read L09+2500
read L18 20000
read L08 -
read L66 20
-- a program: to the first well, a dwell, three wells more, and back
read N1 G90 X+1200 F4000
read N2 G04 X250
read N3G25X2
read G91 X900
read G26
read N10 G76
read N11
-- and what is asked while it runs
read H01
read !H17
read N4 H13
read $
read #
read *
-- slips of the hand: too many digits, a word too many, a word too early, a code that is none, and no such line
read X1234567890
read H17 X5
read X5 N3
read G05
read N401
read L09 115001
read L11 5 6
read l11 5
read N12 X
read
read-hex 4E 31 FF
read-hex 4E 3
-- The same worksheet, taken by the board and listed back.
line L11 5000
line L18 20000
line L08 -
line N1 G90 X+1200 F4000
line N2 G04 X250
line N3G25X2
-- without N the pointer's line is replaced
line G91 X900
line H15
line N4 G91 X-900
line N5 G26
line N6 G76
line N1 H13
line N2H13
line N3 H13
line H13
line N4 H13
line N5H13
line N7 H13
line N2 H11
line H13
line !H15
-- parameters: the code to be sent is itself one
line L49 11
line H16
line L49 18
line H16
line L49 8
line H16
line L49 7
line H16
-- refused lines change nothing
line N1 G90 X
line N1 X5 G05
line N1 X5 H17
line N1 H13
-- short of memory: for the answer, then for the program
room 63
line H15
line H16 X
room 64
lend 399
line N1 X5
line
lend 400
line N1 H13
line H17
line *
hex 4E 31 20 48 31 33
";

// By the second reader of lines and the second board, in Python; which row is a mistake is counted by hand.
const ANSWERS: &str = "\
set L11 to 5000
set L09 to 2500
set L18 to 20000
set L08 to -
set L66 to 20
store at line 1: G90 X+1200 F4000
store at line 2: G04 X+250
store at line 3: G25 X+2
store at the pointer's line: G91 X+900
store at the pointer's line: G26
store at line 10: G76
set the pointer to line 11
do H01
transfer H17
do H13 with line 4
hold
stop
clear
store at the pointer's line: X+34567890
refused 6 at 5
refused 6 at 1
refused 7 at 1
refused 8 at 1
refused 8 at 1
refused 4 at 7
refused 4 at 1
refused 5 at 5
refused 3 at 0
refused 4 at 3
row 34: each byte has two hexadecimal digits, 00 to FF
silent
silent
silent
silent
silent
silent
silent
answer N003
silent
silent
silent
answer N001 G90 X+00001200 F0004000
answer N002 G04 X+00000250         
answer N003 G91 X+00000900         
answer N003 G91 X+00000900         
answer N004 G91 X-00000900         
answer N005 G26                    
answer N007                        
silent
answer N002                        
answer N002
silent
answer L11 00005000
silent
answer L18 +00020000
silent
answer L08 -
silent
answer 
refused 5 at 8
refused 7 at 7
refused 6 at 7
answer N001 G90 X+00001200 F0004000
refused 2 at 0
refused 5 at 5
refused 14 at 0
refused 14 at 0
answer N001 G90 X+00001200 F0004000
not yet
not yet
answer N001 G90 X+00001200 F0004000
";

#[test]
fn worksheet(rt: HostRuntime) -> anyhow::Result<()> {
    let mut source = Source::new(rt.alloc(), ROWS.as_bytes())?;
    let mut out = Vec::new(rt.alloc());
    begin(rt.alloc(), &mut source, &mut out)?;
    assert_eq!(rt; out.as_slice(), ANSWERS.as_bytes());
    Ok(())
}
