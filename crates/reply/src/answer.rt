// What a line is answered.
use orders::heard::Fields;
use settings::parameter::Parameter;

#[derive(Clone, Copy, PartialEq, Eq, Debug)]
pub enum Answer {
    // Silence.
    Nothing,
    ProgramLine {
        number: u32,
        fields: Fields,
    },
    Pointer {
        number: u32,
    },
    // A home direction by the sign of the value.
    Parameter {
        parameter: Parameter,
        value: i32,
    },
    // No parameter has the transfer code.
    Unlisted,
    Position {
        count: i32,
    },
    Status {
        program: bool,
        moving: bool,
        absolute: bool,
        windings_off: bool,
        high_speed: bool,
        jog: bool,
    },
    Outputs {
        second: bool,
        first: bool,
    },
    // Those not in use are false.
    Inputs {
        fourth: bool,
        third: bool,
        second: bool,
        first: bool,
    },
}
