// What each parameter is set to.
ghost use Rattle.std.specs.Prelude.{◌≡◌, true};
ghost use Rattle.axis.specs.Resolutions.{Resolution};
ghost use Rattle.settings.specs.Parameters.{fits};
ghost use Rattle.settings.specs.declared.parameter.Parameter.TheVariants.{JogSpeed, Acceleration, LowSpeed, StepLength, HomeSpeed, HomeOffset, ClockwiseLimit, CounterclockwiseLimit, StartLine, ChangeoverTime, FurtherRuns, TransferCode, Backlash};

use crate::parameter::RunFormat;
use axis::direction::Direction;

pub mod access;
pub mod start;

// A number that its parameter does not take.
#[derive(Clone, Copy, PartialEq, Eq, Debug)]
pub struct OutOfRange;

// Speeds in pulses a second, lengths in pulses, the changeover time in milliseconds.
#[derive(Clone, Copy)]
pub struct Settings {
    resolution: u32,
    run_format: RunFormat,
    home_direction: Direction,
    jog_speed: i32,
    acceleration: i32,
    low_speed: i32,
    step_length: i32,
    home_speed: i32,
    home_offset: i32,
    clockwise_limit: i32,
    counterclockwise_limit: i32,
    start_line: i32,
    changeover_time: i32,
    // The limit switch inputs are inputs 3 and 4.
    switch_inputs: bool,
    further_runs: i32,
    transfer_code: i32,
    backlash: i32,
    auto_reverse: bool,
    // A fact for each: a number's own type would need the resolution and the parameter in it, and one fact over all the table `value` of specs/, which takes a whole Settings, as no invariant of Settings can name yet.
    ghost resolved: { Resolution resolution },
    ghost jog_speed_fits: { fits resolution JogSpeed jog_speed ≡ true },
    ghost acceleration_fits: { fits resolution Acceleration acceleration ≡ true },
    ghost low_speed_fits: { fits resolution LowSpeed low_speed ≡ true },
    ghost step_length_fits: { fits resolution StepLength step_length ≡ true },
    ghost home_speed_fits: { fits resolution HomeSpeed home_speed ≡ true },
    ghost home_offset_fits: { fits resolution HomeOffset home_offset ≡ true },
    ghost clockwise_limit_fits: { fits resolution ClockwiseLimit clockwise_limit ≡ true },
    ghost counterclockwise_limit_fits: { fits resolution CounterclockwiseLimit counterclockwise_limit ≡ true },
    ghost start_line_fits: { fits resolution StartLine start_line ≡ true },
    ghost changeover_time_fits: { fits resolution ChangeoverTime changeover_time ≡ true },
    ghost further_runs_fits: { fits resolution FurtherRuns further_runs ≡ true },
    ghost transfer_code_fits: { fits resolution TransferCode transfer_code ≡ true },
    ghost backlash_fits: { fits resolution Backlash backlash ≡ true },
}
