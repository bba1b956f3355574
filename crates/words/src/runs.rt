// Runs of bytes of one kind at the front of a line.
ghost use Rattle.std.specs.Prelude.{◌≡◌};
ghost use Rattle.words.specs.Bytes.{blank};
ghost use Rattle.scan.specs.Numbers.{digit};
ghost use Rattle.scan.specs.Runs.{past, span};
ghost use Rattle.words.specs.Words.{sign_at, after_sign};

use crate::digits::Digits;
use crate::word::Sign;
use scan::runs::{Kind, past, split};

struct Blank;

impl Kind for Blank {
    ghost includes = { blank };

    fn is(byte: u8) -> bool {
        byte == b' '
    }
}

struct Digit;

impl Kind for Digit {
    ghost includes = { digit };

    fn is(byte: u8) -> bool {
        byte.is_ascii_digit()
    }
}

// The line without the blanks at its front.
pub fn trimmed(bytes: &[u8]) -> &[u8]
    ensures { result.now ≡ past blank bytes.now }
{
    past::<Blank>(bytes)
}

// The digits at the front, and what stands behind them.
#[tactic(auto, using(scan::proofs::Few::span_digits))]
pub fn run_of_digits(bytes: &[u8]) -> (Digits<'_>, &[u8])
    ensures front { result.0.bytes.now ≡ span digit bytes.now }
    ensures back { result.1.now ≡ past digit bytes.now }
{
    let (front, back) = split::<Digit>(bytes);
    (Digits { bytes: front }, back)
}

// The sign at the front, if there is one, and what stands behind it.
pub fn signed(bytes: &[u8]) -> (Option<Sign>, &[u8])
    ensures sign { result.0 ≡ sign_at bytes.now }
    ensures rest { result.1.now ≡ after_sign bytes.now }
{
    match bytes {
        [b'+', rest @ ..] => (Some(Sign::Plus), rest),
        [b'-', rest @ ..] => (Some(Sign::Minus), rest),
        _ => (None, bytes),
    }
}
