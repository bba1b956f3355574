// Worked cases of digits that are too many for their field.
ghost use Rattle.std.specs.Prelude.{◌≡◌, codes};
ghost use Rattle.scan.specs.Fields.{kept};
ghost use Rattle.scan.specs.Numbers.{value};
ghost use Rattle.scan.specs.declared.field.Field.TheVariants.{Line, Number};

use crate::field::Field;

// X1234567890 is 34,567,890: of ten digits the last eight count. N1000 is line 000, which there is not.
pub fn long_digits() -> u32
    ensures number { value (kept Number (codes "1234567890")) ≡ 34567890 }
    ensures line { value (kept Line (codes "1000")) ≡ 0 }
    ensures run { result ≡ 34567890 }
{
    Field::Number.value(b"1234567890")
}
