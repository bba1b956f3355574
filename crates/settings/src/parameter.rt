// The parameters by name, and their codes, as in L06.
#[derive(Clone, Copy, PartialEq, Eq, Debug)]
pub enum Parameter {
    RunFormat = 6,
    HomeDirection = 8,
    JogSpeed = 9,
    Acceleration = 11,
    LowSpeed = 12,
    StepLength = 13,
    HomeSpeed = 14,
    HomeOffset = 17,
    ClockwiseLimit = 18,
    CounterclockwiseLimit = 19,
    StartLine = 41,
    ChangeoverTime = 43,
    SwitchInputs = 45,
    FurtherRuns = 47,
    TransferCode = 49,
    Backlash = 66,
    AutoReverse = 67,
}

// How often a program runs once it is started.
#[derive(Clone, Copy, PartialEq, Eq, Debug)]
pub enum RunFormat {
    SingleLine = 1,
    Counted = 2,
    Endless = 3,
}
