// The answers that come out of the memory and the parameters.
ghost use Rattle.std.specs.Prelude.{◌≡◌};
ghost use Rattle.reply.specs.Sendings.{line_sent, parameter_sent};
ghost use Rattle.reply.specs.declared.answer.Answer.TheVariants.{Pointer};

use crate::answer::Answer;
use codes::coded::Coded;
use orders::heard::Fields;
use program::clearing::UNPROGRAMMED;
use program::number::LineNumber;
use settings::parameter::Parameter;
use settings::values::Settings;

// H13: where there is no such line in the memory, none is programmed.
pub fn send_line(lines: &[Fields], line: LineNumber) -> Answer
    ensures { result ≡ line_sent lines.now line.number }
{
    Answer::ProgramLine {
        number: line.number(),
        fields: lines.get(line.index()).copied().unwrap_or(UNPROGRAMMED),
    }
}

// H15.
pub fn send_pointer(line: LineNumber) -> Answer
    ensures { result ≡ Pointer line.number }
{
    Answer::Pointer {
        number: line.number(),
    }
}

// H16: the parameter that the transfer code names.
pub fn send_parameter(settings: &Settings) -> Answer
    ensures { result ≡ parameter_sent settings.now }
{
    let code = settings.get(Parameter::TransferCode);
    match Parameter::coded(code.unsigned_abs()) {
        Some(parameter) => Answer::Parameter {
            parameter,
            value: settings.get(parameter),
        },
        None => Answer::Unlisted,
    }
}
