// A program line as text.
ghost use Rattle.std.specs.Prelude.{◌≡◌, ◌++◌};
ghost use Rattle.reply.specs.RoundTrips.{Sendable, RoundTrip};
ghost use Rattle.reply.specs.Texts.{line_text, end};

use crate::digits::{put_digits, sign};
use codes::coded::Coded;
use orders::heard::Fields;

// With carriage return and line feed; a field that is absent is left blank.
#[tactic(auto, using(crate::proofs::RoundTrip::round_trip))]
pub fn program_line(number: u32, fields: Fields) -> [u8; 30]
    ensures text { result ≡ line_text number fields ++ end }
    ensures again { Sendable number fields → RoundTrip number fields }
{
    let mut text = *b"N000                        \r\n";
    put_digits(&mut text[1..4], number);
    if let Some(code) = fields.code {
        text[5] = b'G';
        put_digits(&mut text[6..8], u32::from(code.code()));
    }
    if let Some(x) = fields.x {
        text[9] = b'X';
        text[10] = sign(x);
        put_digits(&mut text[11..19], x.unsigned_abs());
    }
    if let Some(feed) = fields.feed {
        text[20] = b'F';
        put_digits(&mut text[21..28], feed);
    }
    text
}
