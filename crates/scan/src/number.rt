// A whole number in a row.
ghost use Rattle.std.specs.Prelude.{◌≡◌, ◌^◌, ◌≤◌, true, IfNone, IfSome};
ghost use Rattle.scan.specs.Numbers.{numeral, value};

// One or more digits, up to 4,294,967,295.
pub fn number(word: &[u8]) -> Option<u32>
    ensures none { IfNone result (numeral word.now ≡ true → 2 ^ 32 ≤ value word.now) }
    ensures value { IfSome result (λ n. n ≡ value word.now) }
    ensures numeral { IfSome result (λ n. numeral word.now ≡ true) }
{
    if word.is_empty() {
        return None;
    }
    let mut n = 0u32;
    for digit in word {
        if !digit.is_ascii_digit() {
            return None;
        }
        n = n.checked_mul(10)?.checked_add(u32::from(*digit - b'0'))?;
    }
    Some(n)
}
