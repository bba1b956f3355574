// Reading and setting parameters.
ghost use Rattle.std.specs.Prelude.{◌≡◌, ◌↔◌, true, false, pos, IsOk, MatchResult};
ghost use Rattle.std.specs.Range.{range_inclusive_start, range_inclusive_end, range_inclusive_exhausted};
ghost use Rattle.axis.specs.Resolutions.{top};
ghost use Rattle.settings.specs.Parameters.{row, fits};
ghost use Rattle.settings.specs.Values.{value, Put};

use super::{OutOfRange, Settings};
use crate::numbers::signed_direction;
use crate::parameter::{Parameter, RunFormat};
use axis::direction::Direction;
use axis::speeds::top_at;
use std::ops::RangeInclusive;

const EIGHT_DIGITS: i32 = 99_999_999;

// Reading and setting by code are tables over the fields: each parameter is a field of its own name (docs/DECISIONS.md), which no index reaches.
impl Settings {
    pub fn get(&self, parameter: Parameter) -> i32
        ensures { result ≡ value self.now parameter }
    {
        match parameter {
            Parameter::RunFormat => self.run_format.number(),
            Parameter::HomeDirection => self.home_direction.step(),
            Parameter::JogSpeed => self.jog_speed,
            Parameter::Acceleration => self.acceleration,
            Parameter::LowSpeed => self.low_speed,
            Parameter::StepLength => self.step_length,
            Parameter::HomeSpeed => self.home_speed,
            Parameter::HomeOffset => self.home_offset,
            Parameter::ClockwiseLimit => self.clockwise_limit,
            Parameter::CounterclockwiseLimit => self.counterclockwise_limit,
            Parameter::StartLine => self.start_line,
            Parameter::ChangeoverTime => self.changeover_time,
            Parameter::SwitchInputs => i32::from(self.switch_inputs),
            Parameter::FurtherRuns => self.further_runs,
            Parameter::TransferCode => self.transfer_code,
            Parameter::Backlash => self.backlash,
            Parameter::AutoReverse => i32::from(self.auto_reverse),
        }
    }

    // The least and the greatest value of a parameter.
    pub fn range(&self, parameter: Parameter) -> RangeInclusive<i32>
        ensures least { range_inclusive_start result ≡ (row self.now.resolution parameter).least }
        ensures most { range_inclusive_end result ≡ (row self.now.resolution parameter).most }
        ensures unspent { range_inclusive_exhausted result ≡ false }
    {
        match parameter {
            Parameter::RunFormat => 1..=3,
            Parameter::HomeDirection => i32::MIN..=i32::MAX,
            Parameter::JogSpeed | Parameter::HomeSpeed => 1..=self.top_speed(),
            Parameter::LowSpeed => 0..=self.top_speed(),
            Parameter::Acceleration | Parameter::StepLength => 1..=EIGHT_DIGITS,
            Parameter::HomeOffset
            | Parameter::ClockwiseLimit
            | Parameter::CounterclockwiseLimit
            | Parameter::Backlash => -EIGHT_DIGITS..=EIGHT_DIGITS,
            Parameter::StartLine => 1..=400,
            Parameter::ChangeoverTime => 0..=9_999,
            Parameter::SwitchInputs | Parameter::AutoReverse => 0..=1,
            Parameter::FurtherRuns => 0..=EIGHT_DIGITS,
            Parameter::TransferCode => 0..=99,
        }
    }

    fn top_speed(&self) -> i32
        ensures { result ≡ pos (top self.now.resolution) }
    {
        top_at(self.resolution) as i32
    }

    // Whether the number is in the parameter's range.
    pub fn takes(&self, parameter: Parameter, number: i32) -> bool
        ensures { result ≡ fits self.now.resolution parameter number }
    {
        self.range(parameter).contains(&number)
    }

    // Refused where the number is out of the parameter's range, and then nothing changes.
    pub fn set(&mut self, parameter: Parameter, number: i32) -> Result<(), OutOfRange>
        ensures taken { IsOk result ↔ (fits self.old.resolution parameter number ≡ true) }
        ensures put { MatchResult result (λ _. Put self.old self.new parameter number) (λ _. self.new ≡ self.old) }
    {
        if !self.takes(parameter, number) {
            return Err(OutOfRange);
        }
        match parameter {
            Parameter::RunFormat => self.run_format = RunFormat::try_from(number)?,
            Parameter::HomeDirection => self.home_direction = signed_direction(number),
            Parameter::JogSpeed => self.jog_speed = number,
            Parameter::Acceleration => self.acceleration = number,
            Parameter::LowSpeed => self.low_speed = number,
            Parameter::StepLength => self.step_length = number,
            Parameter::HomeSpeed => self.home_speed = number,
            Parameter::HomeOffset => self.home_offset = number,
            Parameter::ClockwiseLimit => self.clockwise_limit = number,
            Parameter::CounterclockwiseLimit => self.counterclockwise_limit = number,
            Parameter::StartLine => self.start_line = number,
            Parameter::ChangeoverTime => self.changeover_time = number,
            Parameter::SwitchInputs => self.switch_inputs = number == 1,
            Parameter::FurtherRuns => self.further_runs = number,
            Parameter::TransferCode => self.transfer_code = number,
            Parameter::Backlash => self.backlash = number,
            Parameter::AutoReverse => self.auto_reverse = number == 1,
        }
        Ok(())
    }
}
