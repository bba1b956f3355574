// The standard pile, and another, to show that any pile is an axis.
ghost use Rattle.std.specs.Prelude.{◌≡◌, false, pos, neg_ℤ};
ghost use Rattle.axis.specs.Stands.{stand, reach};
ghost use Rattle.layers.specs.Allowances.{capped};
ghost use Rattle.piles.specs.Piles.{standard_pile, phase_pile};

use axis::direction::Direction;
use axis::interface::Axis;
use axis::stroke::out_and_back;
use layers::allowance::Allowance;
use layers::fence::Fence;
use layers::reversed::Reversed;
use phase::drive::PhaseAxis;
use pin::drive::PinAxis;

pub type Standard = Reversed<Fence<PinAxis>>;

pub type FencedPhase = Fence<Reversed<PhaseAxis>>;

// Off, at place 0; the allowance is that of the fence, so its `down` bounds the way up of the reversed pile.
// What code for any axis promises, it promises here of `standard_pile`.
pub fn standard(allowance: Allowance) -> Standard
    ensures axis { stand ⟦<Standard as Axis>⟧ ≡ stand standard_pile }
    ensures resolution { ⟦<Standard as Axis>⟧.res ≡ 10 }
    ensures place { standard_pile.place result ≡ pos 0 }
    ensures low { standard_pile.low result ≡ neg_ℤ (pos (capped allowance).up) }
    ensures high { standard_pile.high result ≡ pos (capped allowance).down }
    ensures powered { standard_pile.powered result ≡ false }
{
    Reversed::new(Fence::new(PinAxis::new(), allowance))
}

pub fn fenced_phase(allowance: Allowance) -> FencedPhase
    ensures axis { stand ⟦<FencedPhase as Axis>⟧ ≡ stand phase_pile }
    ensures resolution { ⟦<FencedPhase as Axis>⟧.res ≡ 2 }
    ensures place { phase_pile.place result ≡ pos 0 }
    ensures low { phase_pile.low result ≡ neg_ℤ (pos (capped allowance).down) }
    ensures high { phase_pile.high result ≡ pos (capped allowance).up }
    ensures powered { phase_pile.powered result ≡ false }
{
    Fence::new(Reversed::new(PhaseAxis::new()), allowance)
}

// A pile has the resolution of the drive at its bottom.
pub fn standard_resolution() -> u32
    ensures { result ≡ 10 }
{
    Standard::resolution()
}

pub fn phase_resolution() -> u32
    ensures { result ≡ 2 }
{
    FencedPhase::resolution()
}

// How far a standard pile, wherever it stands, goes one way of n pulses; it ends where it began.
pub fn standard_travel(pile: &mut Standard, way: Direction, n: u32) -> u32
    ensures taken { pos result ≡ reach way n (stand standard_pile pile.old) }
    ensures after { stand standard_pile pile.new ≡ stand standard_pile pile.old }
{
    out_and_back::<Standard>(pile, way, n)
}

pub fn phase_travel(pile: &mut FencedPhase, way: Direction, n: u32) -> u32
    ensures taken { pos result ≡ reach way n (stand phase_pile pile.old) }
    ensures after { stand phase_pile pile.new ≡ stand phase_pile pile.old }
{
    out_and_back::<FencedPhase>(pile, way, n)
}
