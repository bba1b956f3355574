// What follows from an axis's resolution: the top speed and the values that parameters start at.
ghost use Rattle.std.specs.Prelude.{◌≡◌, ◌≤◌};
ghost use Rattle.axis.specs.Resolutions.{top, speed_start, acceleration_start, low_speed_start, step_start};

use crate::interface::Axis;

// S, in pulses a second, at a resolution.
pub fn top_at(resolution: u32) -> u32
    ensures { result ≡ top resolution }
{
    if resolution == 125 {
        1_875_000
    } else {
        115_000
    }
}

pub fn top_speed<A: Axis>() -> u32
    ensures { result ≡ top A.Axis.res }
{
    top_at(A::resolution())
}

// The starting values are a line each: a shared `times::<K, A>()` would need a bound on K, and leave as many one-line callers.

// Jog speed, home speed and feed, in pulses a second.
pub fn starting_speed<A: Axis>() -> u32
    ensures is { result ≡ speed_start A.Axis.res }
    ensures within { result ≤ top A.Axis.res }
{
    1_000 * A::resolution()
}

// In pulses a second, a second: the same number.
pub fn starting_acceleration<A: Axis>() -> u32
    ensures { result ≡ acceleration_start A.Axis.res }
{
    starting_speed::<A>()
}

pub fn starting_low_speed<A: Axis>() -> u32
    ensures is { result ≡ low_speed_start A.Axis.res }
    ensures within { result ≤ top A.Axis.res }
{
    300 * A::resolution()
}

// The length of a step, in pulses.
pub fn starting_step<A: Axis>() -> u32
    ensures { result ≡ step_start A.Axis.res }
{
    A::resolution()
}
