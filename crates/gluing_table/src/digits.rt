//! Decimal numbers of at most 32 bits.

ghost use Rattle.std.specs.Prelude.{◌≡◌, ◌^◌, nat_lt, IsTrue, Some, None, if◌then◌else◌};
ghost use Rattle.text_definitions.specs.Text.{is_decimal, digits_value};

use text_io::value_up_to;

/// The value of the decimal `digits`, or `None` if it is 2^32 or more.
pub fn number_of_digits(digits: &[u8]) -> Option<u32>
    requires { IsTrue (is_decimal digits.now) }
    ensures { result ≡ (if nat_lt (digits_value digits.now) (2 ^ 32) then Some (digits_value digits.now) else None) }
{
    let value = value_up_to(digits, u128::from(u32::MAX))?;
    Some(value as u32)
}
