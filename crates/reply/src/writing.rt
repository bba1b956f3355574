// Writes an answer into lent memory.
ghost use Rattle.std.specs.Prelude.{◌≡◌, ◌≤◌, ◌++◌, length, drop};
ghost use Rattle.reply.specs.Texts.{text, parameter_text};

use crate::answer::Answer;
use crate::digits::bit;
use crate::line::program_line;
use crate::texts::{flags, home_direction, plain_value, pointer, position, signed_value};
use codes::coded::Coded;
use settings::parameter::Parameter;

// Puts bytes at the front, and tells how many.
fn put(out: &mut [u8], bytes: &[u8]) -> usize
    requires { length bytes.now ≤ length out.old }
    ensures count { result ≡ length bytes.now }
    ensures bytes { out.new ≡ bytes.now ++ drop result out.old }
{
    out[..bytes.len()].copy_from_slice(bytes);
    bytes.len()
}

// How many bytes were written, all at the front.
// A slice that is long enough, and no chunk of 64 bytes, which `settle`'s clauses would have to join to the rest of the memory again.
pub fn write(out: &mut [u8], answer: Answer) -> usize
    requires { 64 ≤ length out.old }
    ensures count { result ≡ length (text answer) }
    ensures bytes { out.new ≡ text answer ++ drop result out.old }
{
    match answer {
        Answer::Nothing => 0,
        Answer::ProgramLine { number, fields } => put(out, &program_line(number, fields)),
        Answer::Pointer { number } => put(out, &pointer(number)),
        Answer::Parameter { parameter, value } => write_parameter(out, parameter, value),
        Answer::Unlisted => put(out, b"\r\n"),
        Answer::Position { count } => put(out, &position(count)),
        Answer::Status {
            program,
            moving,
            absolute,
            windings_off,
            high_speed,
            jog,
        } => put(
            out,
            &flags([
                bit(program),
                bit(moving),
                bit(absolute),
                bit(windings_off),
                b'0',
                b'0',
                bit(high_speed),
                bit(jog),
            ]),
        ),
        Answer::Outputs { second, first } => put(
            out,
            &flags([b'0', b'0', b'0', b'0', b'0', b'0', bit(second), bit(first)]),
        ),
        Answer::Inputs {
            fourth,
            third,
            second,
            first,
        } => put(
            out,
            &flags([
                b'0',
                b'0',
                b'0',
                b'0',
                bit(fourth),
                bit(third),
                bit(second),
                bit(first),
            ]),
        ),
    }
}

fn write_parameter(out: &mut [u8], parameter: Parameter, value: i32) -> usize
    requires { 64 ≤ length out.old }
    ensures count { result ≡ length (parameter_text parameter value) }
    ensures bytes { out.new ≡ parameter_text parameter value ++ drop result out.old }
{
    let code = u32::from(parameter.code());
    match parameter {
        Parameter::HomeDirection => put(out, &home_direction(code, value)),
        _ if parameter.is_signed() => put(out, &signed_value(code, value)),
        _ => put(out, &plain_value(code, value)),
    }
}
