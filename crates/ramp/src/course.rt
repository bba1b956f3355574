// The pulses of a move from rest to rest.
use crate::motor::Motor;
use crate::rate::Rate;
use crate::shape::Ramp;

pub mod pulses;

#[derive(Clone, Copy, PartialEq, Eq, Debug)]
pub struct Course {
    ramp: Ramp,
    motor: Motor,
    // Pulses left.
    left: u32,
}

#[derive(Clone, Copy, PartialEq, Eq, Debug)]
pub struct Pulse {
    pub level: u32,
    pub rate: Rate,
    // Ticks to the next pulse.
    pub wait: u32,
}
