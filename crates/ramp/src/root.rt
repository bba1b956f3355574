// The whole root.
ghost use Rattle.std.specs.Prelude.{◌+◌, ◌*◌, ◌<◌, ◌≤◌};

// The largest number whose square is at most `number`.
pub fn whole_root(number: u64) -> u32
    ensures low { result * result ≤ number }
    ensures high { number < (result + 1) * (result + 1) }
{
    // The library halves a range as wide as the roots of the type, so the narrowest type is asked: each pulse of a move needs a root.
    if let Ok(small) = u16::try_from(number) {
        u32::from(small.isqrt())
    } else if let Ok(middle) = u32::try_from(number) {
        middle.isqrt()
    } else {
        number.isqrt() as u32
    }
}
