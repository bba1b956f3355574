// Rows of pulses over any axis.
ghost use Rattle.std.specs.Prelude.{◌≡◌, pos};
ghost use Rattle.axis.specs.Stands.{stand, reach, along};

use crate::direction::Direction;
use crate::interface::Axis;

// Up to n pulses one way, and how many were taken: after one is refused the others would be too.
pub fn stroke<A: Axis>(axis: &mut A, way: Direction, n: u32) -> u32
    ensures taken { pos result ≡ reach way n (stand A.Axis axis.old) }
    ensures after { stand A.Axis axis.new ≡ along way result (stand A.Axis axis.old) }
{
    for taken in 0..n {
        if !axis.pulse(way) {
            return taken;
        }
    }
    n
}

// Up to n pulses one way and as many back: the axis stands where it stood.
pub fn out_and_back<A: Axis>(axis: &mut A, way: Direction, n: u32) -> u32
    ensures taken { pos result ≡ reach way n (stand A.Axis axis.old) }
    ensures after { stand A.Axis axis.new ≡ stand A.Axis axis.old }
{
    let out = stroke(axis, way, n);
    let _back = stroke(axis, way.reversed(), out);
    out
}
