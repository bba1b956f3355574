// The codes of the parameters, as in L06.
ghost use Rattle.std.specs.Prelude.{◌≡◌};
ghost use Rattle.codes.specs.Coded.{Names};
ghost use Rattle.settings.specs.Parameters.{code, all_parameters, found, signed};

use crate::parameter::Parameter;
use codes::coded::{Coded, UnknownCode};

const ALL: [Parameter; 17] = [
    Parameter::RunFormat,
    Parameter::HomeDirection,
    Parameter::JogSpeed,
    Parameter::Acceleration,
    Parameter::LowSpeed,
    Parameter::StepLength,
    Parameter::HomeSpeed,
    Parameter::HomeOffset,
    Parameter::ClockwiseLimit,
    Parameter::CounterclockwiseLimit,
    Parameter::StartLine,
    Parameter::ChangeoverTime,
    Parameter::SwitchInputs,
    Parameter::FurtherRuns,
    Parameter::TransferCode,
    Parameter::Backlash,
    Parameter::AutoReverse,
];

impl Coded for Parameter {
    ghost code = { code };

    ghost all = { all_parameters };

    ghost found = { found };

    #[tactic(auto, unfolding(crate::specs::Parameters::all_parameters))]
    fn all() -> &'static [Parameter] {
        &ALL
    }

    fn code(self) -> u8 {
        self as u8
    }
}

impl TryFrom<u32> for Parameter {
    type Error = UnknownCode;

    ghost try_from_gives = { Names code };

    fn try_from(number: u32) -> Result<Parameter, UnknownCode> {
        Parameter::coded(number).ok_or(UnknownCode(number))
    }
}

impl Parameter {
    // Whether it is written with its sign.
    pub fn is_signed(self) -> bool
        ensures { result ≡ signed self }
    {
        matches!(
            self,
            Parameter::HomeDirection
                | Parameter::HomeOffset
                | Parameter::ClockwiseLimit
                | Parameter::CounterclockwiseLimit
                | Parameter::Backlash
        )
    }
}
