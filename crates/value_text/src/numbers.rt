//! The number that a word writes.

ghost use Rattle.std.specs.Prelude.{◌≡◌, ◌<◌, ◌≤◌, ◌+◌, ◌^◌, length, pos, neg_ℤ, if◌then◌else◌, IfSome};
ghost use Rattle.value_text.specs.UsualLines.{BeginsWithNumber, EndsLine, IsWindow};
ghost use Rattle.value_text.specs.Words.{capped_value, size_in, number_text};

/// The largest number that a rank may have; the least has a `-` before it.
pub const NUMBER_LIMIT: u64 = 1_000_000_000_000;

// How many digits a number may have.
const DIGIT_LIMIT: usize = 13;

// A size and the line feed behind it have at most so many bytes.
const WINDOW: usize = 14;

// The number that digits write, or the limit where it is more. None where one of the bytes is no digit.
fn capped_value(digits: &[u8], limit: u64) -> Option<u64>
    requires { limit < 2 ^ 60 }
    ensures { result ≡ capped_value limit digits.now }
{
    let mut number = 0;
    for digit in digits {
        if !digit.is_ascii_digit() {
            return None;
        }
        number = limit.min(10 * number + u64::from(*digit - b'0'));
    }
    Some(number)
}

// The size that digits write, if they write one.
fn size_in(digits: &[u8]) -> Option<u64>
    ensures value { result ≡ size_in digits.now }
    ensures within_limit { IfSome result (λ size. size ≤ NUMBER_LIMIT) }
{
    if digits.is_empty() || digits.len() > DIGIT_LIMIT {
        return None;
    }
    let size = capped_value(digits, NUMBER_LIMIT + 1)?;
    if size > NUMBER_LIMIT {
        return None;
    }
    Some(size)
}

// The number of a size behind a `-`, or without a sign.
fn signed(size: u64, is_negative: bool) -> i64
    requires { size ≤ NUMBER_LIMIT }
    ensures { result ≡ (if is_negative then neg_ℤ (pos size) else pos size) }
{
    let number = size as i64;
    if is_negative { -number } else { number }
}

/// The number that a word writes, if it writes one.
pub fn number_text(word: &[u8]) -> Option<i64>
    ensures { result ≡ number_text word.now }
{
    let Some((sign, digits)) = word.split_first() else {
        return None;
    };
    if *sign == b'-' {
        return match size_in(digits) {
            Some(size) => Some(signed(size, true)),
            None => None,
        };
    }
    match size_in(word) {
        Some(size) => Some(signed(size, false)),
        None => None,
    }
}

// The size that a text begins with, with a line feed behind it, and what is left behind that. None where the text
// begins otherwise.
fn cut_short(text: &[u8]) -> Option<(u64, &[u8])>
    ensures number { IfSome result (λ cut. BeginsWithNumber text.now cut.0 10 cut.1.now) }
    ensures few { IfSome result (λ cut. length text.now ≤ length cut.1.now + 14) }
    ensures within_limit { IfSome result (λ cut. cut.0 ≤ NUMBER_LIMIT) }
{
    let mut size = 0;
    for (i, b) in text.iter().enumerate() {
        if !b.is_ascii_digit() {
            if *b != b'\n' || i == 0 || i > DIGIT_LIMIT || size > NUMBER_LIMIT {
                return None;
            }
            let (_, rest) = text.split_at(i + 1);
            return Some((size, rest));
        }
        if size > NUMBER_LIMIT {
            return None;
        }
        size = 10 * size + u64::from(*b - b'0');
    }
    None
}

// The same of a text that begins with this window. Its length is known when this is compiled, so the loop becomes
// straight code.
#[inline(always)]
fn cut_in<'t>(window: &[u8; WINDOW], text: &'t [u8]) -> Option<(u64, &'t [u8])>
    requires { IsWindow 14 window.now text.now }
    ensures number { IfSome result (λ cut. BeginsWithNumber text.now cut.0 10 cut.1.now) }
    ensures few { IfSome result (λ cut. length text.now ≤ length cut.1.now + 14) }
    ensures within_limit { IfSome result (λ cut. cut.0 ≤ NUMBER_LIMIT) }
{
    let mut size = 0;
    for (i, b) in window.iter().enumerate() {
        if !b.is_ascii_digit() {
            if *b != b'\n' || i == 0 || size > NUMBER_LIMIT {
                return None;
            }
            let (_, rest) = text.split_at(i + 1);
            return Some((size, rest));
        }
        // for the proof: so few digits write less
        if size >= 1_000_000_000_000_000_000 {
            return None;
        }
        size = 10 * size + u64::from(*b - b'0');
    }
    None
}

// The same of any text.
#[inline(always)]
fn cut_size(text: &[u8]) -> Option<(u64, &[u8])>
    ensures number { IfSome result (λ cut. BeginsWithNumber text.now cut.0 10 cut.1.now) }
    ensures few { IfSome result (λ cut. length text.now ≤ length cut.1.now + 14) }
    ensures within_limit { IfSome result (λ cut. cut.0 ≤ NUMBER_LIMIT) }
{
    match text.split_first_chunk::<WINDOW>() {
        Some((window, _)) => cut_in(window, text),
        None => cut_short(text),
    }
}

/// The number that a text begins with, with a line feed behind it, and what is left behind that. None where the text
/// begins otherwise.
#[inline(always)]
pub fn cut_number(text: &[u8]) -> Option<(i64, &[u8])>
    ensures { IfSome result (λ cut. EndsLine text.now cut.0 cut.1.now) }
{
    let (sign, digits) = text.split_first()?;
    if *sign == b'-' {
        let (size, rest) = cut_size(digits)?;
        return Some((signed(size, true), rest));
    }
    let (size, rest) = cut_size(text)?;
    Some((signed(size, false), rest))
}
