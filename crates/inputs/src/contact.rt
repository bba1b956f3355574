// One switch, as it bounces.
ghost use Rattle.std.specs.Prelude.{◌≡◌};
ghost use Rattle.inputs.specs.Contacts.{inactive, sampled, FlickerLaw};

#[derive(Clone, Copy, PartialEq, Eq, Debug)]
pub struct Contact {
    accepted: bool,
    // The last sample, and the one before it.
    last: bool,
    before: bool,
}

impl Contact {
    // Inactive, and so it was.
    pub fn new() -> Contact
        ensures { result ≡ inactive }
    {
        Contact {
            accepted: false,
            last: false,
            before: false,
        }
    }

    pub fn is_active(self) -> bool
        ensures { result ≡ self.accepted }
    {
        self.accepted
    }

    // A value is accepted once this sample and the two before it have it.
    #[tactic(auto, using(crate::proofs::Flicker::flicker_law))]
    pub fn sampled(self, now: bool) -> Contact
        ensures sampled { result ≡ sampled self now }
        ensures flicker { FlickerLaw self }
    {
        Contact {
            accepted: if now == self.last && now == self.before {
                now
            } else {
                self.accepted
            },
            last: now,
            before: self.last,
        }
    }
}
