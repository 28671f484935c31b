//! Decimal numbers in text.
ghost use Rattle.std.specs.Prelude.{◌≡◌, ◌^◌, ◌<◌, IfSome};
ghost use Rattle.newt_base.specs.Text.{decimal_value, digits_value, signed_value};

/// The most digits of a number.
const MOST: usize = 10;

/// The value of 1 to 10 decimal digits, where it is below 2^32; none for any other text. Leading
/// zeros are allowed.
pub fn decimal(text: &[u8]) -> Option<u32>
    ensures { result ≡ decimal_value text.now }
{
    u32::try_from(digits(text)?).ok()
}

/// The value of 1 to 10 decimal digits after an optional `-`, where it fits a signed word of 32
/// bits; none for any other text. `-0` is 0.
pub fn signed(text: &[u8]) -> Option<i32>
    ensures { result ≡ signed_value text.now }
{
    match text {
        [b'-', rest @ ..] => i32::try_from(-(digits(rest)? as i64)).ok(),
        _ => i32::try_from(digits(text)?).ok(),
    }
}

/// The value of 1 to 10 digits.
fn digits(text: &[u8]) -> Option<u64>
    ensures value { result ≡ digits_value text.now }
    ensures bound { IfSome result (λ n. n < 10 ^ 10) }
{
    if text.is_empty() || text.len() > MOST {
        return None;
    }
    let mut value = 0u64;
    for digit in text {
        if !digit.is_ascii_digit() {
            return None;
        }
        value = 10 * value + u64::from(*digit - b'0');
    }
    Some(value)
}
