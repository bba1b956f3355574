// What a host line orders: H and two digits.
ghost use Rattle.std.specs.Prelude.{◌≡◌};
ghost use Rattle.codes.specs.Coded.{Names};
ghost use Rattle.codes.specs.Host.{code, host_codes, found, transfers};

use crate::coded::{Coded, UnknownCode};

#[derive(Clone, Copy, PartialEq, Eq, Debug)]
pub enum HostCode {
    Start = 1,
    StepMode = 2,
    JogMode = 3,
    HighSpeed = 4,
    LowSpeed = 5,
    Clockwise = 6,
    Counterclockwise = 7,
    ReturnToZero = 8,
    ZeroCounter = 9,
    HomeSearch = 10,
    ClearLine = 11,
    SendLine = 13,
    SendPointer = 15,
    SendParameter = 16,
    SendPosition = 17,
    SendStatus = 19,
    SendOutputs = 20,
    SendInputs = 21,
    Incremental = 33,
    Absolute = 34,
    WindingsOn = 35,
    WindingsOff = 36,
}

const ALL: [HostCode; 22] = [
    HostCode::Start,
    HostCode::StepMode,
    HostCode::JogMode,
    HostCode::HighSpeed,
    HostCode::LowSpeed,
    HostCode::Clockwise,
    HostCode::Counterclockwise,
    HostCode::ReturnToZero,
    HostCode::ZeroCounter,
    HostCode::HomeSearch,
    HostCode::ClearLine,
    HostCode::SendLine,
    HostCode::SendPointer,
    HostCode::SendParameter,
    HostCode::SendPosition,
    HostCode::SendStatus,
    HostCode::SendOutputs,
    HostCode::SendInputs,
    HostCode::Incremental,
    HostCode::Absolute,
    HostCode::WindingsOn,
    HostCode::WindingsOff,
];

impl Coded for HostCode {
    ghost code = { code };

    ghost all = { host_codes };

    ghost found = { found };

    #[tactic(auto, unfolding(crate::specs::Host::host_codes))]
    fn all() -> &'static [HostCode] {
        &ALL
    }

    fn code(self) -> u8 {
        self as u8
    }
}

impl TryFrom<u32> for HostCode {
    type Error = UnknownCode;

    ghost try_from_gives = { Names code };

    fn try_from(number: u32) -> Result<HostCode, UnknownCode> {
        HostCode::coded(number).ok_or(UnknownCode(number))
    }
}

impl HostCode {
    // Whether it asks for an answer and changes nothing.
    pub fn is_transfer(self) -> bool
        ensures { result ≡ transfers self }
    {
        matches!(
            self,
            HostCode::SendLine
                | HostCode::SendPointer
                | HostCode::SendParameter
                | HostCode::SendPosition
                | HostCode::SendStatus
                | HostCode::SendOutputs
                | HostCode::SendInputs
        )
    }
}
