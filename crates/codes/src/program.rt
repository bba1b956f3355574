// What a line of a program does: G and two digits.
ghost use Rattle.codes.specs.Coded.{Names};
ghost use Rattle.codes.specs.Program.{code, program_codes, found};

use crate::coded::{Coded, UnknownCode};

#[derive(Clone, Copy, PartialEq, Eq, Debug)]
pub enum ProgramCode {
    Dwell = 4,
    Call = 11,
    Jump = 12,
    Branch = 20,
    Await = 22,
    OpenLoop = 25,
    CloseLoop = 26,
    HighSpeed = 27,
    LowSpeed = 28,
    SetParameter = 29,
    EndRun = 30,
    Halt = 31,
    Return = 32,
    SetOutputs = 47,
    ReturnToZero = 76,
    ZeroCounter = 77,
    Absolute = 90,
    Incremental = 91,
}

const ALL: [ProgramCode; 18] = [
    ProgramCode::Dwell,
    ProgramCode::Call,
    ProgramCode::Jump,
    ProgramCode::Branch,
    ProgramCode::Await,
    ProgramCode::OpenLoop,
    ProgramCode::CloseLoop,
    ProgramCode::HighSpeed,
    ProgramCode::LowSpeed,
    ProgramCode::SetParameter,
    ProgramCode::EndRun,
    ProgramCode::Halt,
    ProgramCode::Return,
    ProgramCode::SetOutputs,
    ProgramCode::ReturnToZero,
    ProgramCode::ZeroCounter,
    ProgramCode::Absolute,
    ProgramCode::Incremental,
];

impl Coded for ProgramCode {
    ghost code = { code };

    ghost all = { program_codes };

    ghost found = { found };

    #[tactic(auto, unfolding(crate::specs::Program::program_codes))]
    fn all() -> &'static [ProgramCode] {
        &ALL
    }

    fn code(self) -> u8 {
        self as u8
    }
}

impl TryFrom<u32> for ProgramCode {
    type Error = UnknownCode;

    ghost try_from_gives = { Names code };

    fn try_from(number: u32) -> Result<ProgramCode, UnknownCode> {
        ProgramCode::coded(number).ok_or(UnknownCode(number))
    }
}
