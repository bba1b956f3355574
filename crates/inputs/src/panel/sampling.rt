// Samples, and what they come to.
ghost use Rattle.std.specs.Prelude.{◌≡◌};
ghost use Rattle.inputs.specs.Contacts.{inactive, sampled};
ghost use Rattle.inputs.specs.Panels.{contact, active, turns, turned, forbidden, read};
ghost use Rattle.inputs.specs.Switches.{bit};
ghost use Rattle.inputs.specs.declared.switch.Switch.{Switch};
ghost use Rattle.inputs.specs.declared.switch.Switch.TheVariants.{Home};

use super::{Input, Panel, Turned};
use crate::contact::Contact;
use crate::switch::Switch;
use axis::direction::Direction;

impl Panel {
    // Nothing is active, and nothing was.
    pub fn new() -> Panel
        ensures { (s : Switch) → contact result s ≡ inactive }
    {
        Panel {
            contacts: [Contact::new(); 8],
        }
    }

    fn contact(&self, switch: Switch) -> Contact
        ensures { result ≡ contact self.now switch }
    {
        self.contacts[switch as usize]
    }

    fn is_active(&self, switch: Switch) -> bool
        ensures { result ≡ active self.now switch }
    {
        self.contact(switch).is_active()
    }

    // Active now, and not before.
    fn turns(&self, was: &Panel, switch: Switch) -> bool
        ensures { result ≡ turns was.now self.now switch }
    {
        self.is_active(switch) && !was.is_active(switch)
    }

    // Takes a sample of all eight, and tells what turned active.
    pub fn sample(&mut self, sample: u8) -> Turned
        ensures contacts { (s : Switch) → contact self.new s ≡ sampled (contact self.old s) (bit s sample) }
        ensures turned { result ≡ turned self.old self.new }
    {
        let was = *self;
        self.contacts = Switch::ALL.map(|switch| was.contact(switch).sampled(switch.is_in(sample)));
        Turned {
            clear: self.turns(&was, Switch::Clear),
            hold: self.turns(&was, Switch::Hold),
            stop: self.turns(&was, Switch::Stop),
        }
    }

    // Whether home is active.
    pub fn is_home(&self) -> bool
        ensures { result ≡ active self.now Home }
    {
        self.is_active(Switch::Home)
    }

    // Whether the limit switch of this way forbids pulses; as inputs 3 and 4 the switches forbid none.
    pub fn forbids(&self, way: Direction, as_inputs: bool) -> bool
        ensures { result ≡ forbidden self.now way as_inputs }
    {
        let limit = match way {
            Direction::Clockwise => Switch::ClockwiseLimit,
            Direction::Counterclockwise => Switch::CounterclockwiseLimit,
        };
        !as_inputs && self.is_active(limit)
    }

    // Whether an input is active; none where it is not in use.
    pub fn input(&self, input: Input, as_inputs: bool) -> Option<bool>
        ensures { result ≡ read self.now input as_inputs }
    {
        match input {
            Input::First => Some(self.is_active(Switch::FirstInput)),
            Input::Second => Some(self.is_active(Switch::SecondInput)),
            Input::Third => as_inputs.then_some(self.is_active(Switch::ClockwiseLimit)),
            Input::Fourth => as_inputs.then_some(self.is_active(Switch::CounterclockwiseLimit)),
        }
    }
}
