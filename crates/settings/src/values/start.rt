// The parameters of a new indexer.
ghost use Rattle.settings.specs.Values.{Started};

use super::Settings;
use crate::parameter::RunFormat;
use axis::direction::Direction;
use axis::interface::Axis;
use axis::speeds::{starting_acceleration, starting_low_speed, starting_speed, starting_step};

impl Settings {
    // Every parameter at its starting value, by the axis's resolution.
    pub fn new<A: Axis>() -> Settings
        ensures { Started A.Axis.res result }
    {
        Settings {
            resolution: A::resolution(),
            run_format: RunFormat::Counted,
            home_direction: Direction::Clockwise,
            jog_speed: starting_speed::<A>() as i32,
            acceleration: starting_acceleration::<A>() as i32,
            low_speed: starting_low_speed::<A>() as i32,
            step_length: starting_step::<A>() as i32,
            home_speed: starting_speed::<A>() as i32,
            home_offset: 0,
            clockwise_limit: 0,
            counterclockwise_limit: 0,
            start_line: 1,
            changeover_time: 0,
            switch_inputs: false,
            further_runs: 0,
            transfer_code: 0,
            backlash: 0,
            auto_reverse: false,
        }
    }
}
