// The numbers that digits of words give.
ghost use Rattle.std.specs.Prelude.{◌≡◌, ◌==◌, ◌^◌, ◌<◌, if◌then◌else◌, nat_eq};
ghost use Rattle.scan.specs.Fields.{kept};
ghost use Rattle.scan.specs.Numbers.{value};
ghost use Rattle.scan.specs.declared.field.Field.TheVariants.{Code, Number};
ghost use Rattle.orders.specs.Meanings.{signed};

use codes::coded::Coded;
use scan::field::Field;
use settings::parameter::Parameter;
use words::digits::Digits;
use words::word::Sign;

// Whether it is the code of the home direction, which has a sign and needs no digits.
pub fn is_home(code: Digits<'_>) -> bool
    ensures { result ≡ (value (kept Code code.entry.bytes.now) == 8) }
{
    code.value(Field::Code) == u32::from(Parameter::HomeDirection.code())
}

fn with_sign(sign: Option<Sign>, size: u32) -> i32
    requires { size < 2 ^ 31 }
    ensures { result ≡ signed sign size }
{
    match sign {
        Some(Sign::Minus) => -(size as i32),
        _ => size as i32,
    }
}

// The number of X, and of the data of L.
pub fn number(sign: Option<Sign>, digits: Digits<'_>) -> i32
    ensures { result ≡ signed sign (value (kept Number digits.entry.bytes.now)) }
{
    with_sign(sign, digits.value(Field::Number))
}

// What the parameter of this code is given: a home direction 1 or −1.
pub fn data(code: Digits<'_>, sign: Option<Sign>, digits: Digits<'_>) -> i32
    ensures { result ≡ (if nat_eq (value (kept Code code.entry.bytes.now)) 8 then signed sign 1 else signed sign (value (kept Number digits.entry.bytes.now))) }
{
    if is_home(code) {
        return with_sign(sign, 1);
    }
    number(sign, digits)
}
