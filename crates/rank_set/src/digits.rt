//! Decimal digits at the front of a text, and the number that they write.

ghost use Rattle.std.specs.Prelude.{◌≡◌, ◌<◌, ◌≤◌, ◌^◌, length, min, take};
ghost use Rattle.rank_set.specs.Digits.{digits_len, value_after};

/// How many digits a text begins with.
pub fn digits_len(text: &[u8]) -> usize
    ensures value { result ≡ digits_len text.now }
    ensures within { result ≤ length text.now }
{
    text.iter().take_while(|b| b.is_ascii_digit()).count()
}

/// The number that digits write, or the limit where it is more. A text of any length is read, and zeros in front mean
/// nothing.
pub fn capped_value(digits: &[u8], limit: u32) -> u32
    requires { limit < 2 ^ 28 }
    ensures { result ≡ min limit (value_after 0 digits.now) }
{
    let mut number = 0;
    for digit in digits {
        number = limit.min(10 * number + u32::from(digit.saturating_sub(b'0')));
    }
    number
}

/// The number that a text begins with, or the limit where it is more, and how many digits it has. Without a digit both
/// are 0.
#[inline]
pub fn capped_number(text: &[u8], limit: u32) -> (u32, usize)
    requires { limit < 2 ^ 28 }
    ensures value { result.0 ≡ min limit (value_after 0 (take (digits_len text.now) text.now)) }
    ensures len { result.1 ≡ digits_len text.now }
    ensures within { result.1 ≤ length text.now }
{
    let mut number = 0;
    for (i, b) in text.iter().enumerate() {
        if !b.is_ascii_digit() {
            return (number, i);
        }
        number = limit.min(10 * number + u32::from(*b - b'0'));
    }
    (number, text.len())
}
