// Whether the motor turns, and at which level it was pulsed last.
// In place of an Option<u32>: each state has its name, and no `None` at a call has to be read as rest.
#[derive(Clone, Copy, PartialEq, Eq, Debug)]
pub enum Motor {
    AtRest,
    Running { level: u32 },
}
