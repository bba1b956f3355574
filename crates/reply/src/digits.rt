// Bytes of numbers.
ghost use Rattle.std.specs.Prelude.{◌≡◌, length};
ghost use Rattle.reply.specs.Texts.{padded, sign_of, bit};

// Fills `text` with the last digits of a number, zeros in front.
pub fn put_digits(text: &mut [u8], number: u32)
    ensures { text.new ≡ padded (length text.old) number }
{
    if let Some((last, front)) = text.split_last_mut() {
        *last = b'0' + (number % 10) as u8;
        put_digits(front, number / 10);
    }
}

// 0 has +.
pub fn sign(number: i32) -> u8
    ensures { result ≡ sign_of number }
{
    if number < 0 { b'-' } else { b'+' }
}

pub fn bit(on: bool) -> u8
    ensures { result ≡ bit on }
{
    b'0' + u8::from(on)
}
