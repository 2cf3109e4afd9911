//! Beginnings and ends of texts, and what stands behind them.

ghost use Rattle.std.specs.List.{list_all};
ghost use Rattle.std.specs.Prelude.{◌+◌, ◌≡◌, ◌<◌, ◌≤◌, MatchOption, IfSome, option_map, [], ◌∷◌, length};
ghost use Rattle.text_lines.specs.Lines.{pieces};
ghost use Rattle.stack_text.specs.Texts.{is_hex, hex_len, behind, before, behind_hex, behind_digits, number_of};

use rank_set::digits::{capped_number, digits_len};
use text_lines::line_len;

/// Numbers of processes, threads, calls and lines are below this. What is more is no number.
pub const NUMBER_LIMIT: u32 = 134_217_728;

// Whether a byte is a hexadecimal digit, in small letters.
fn is_hex(b: u8) -> bool
    ensures { result ≡ is_hex b }
{
    b.is_ascii_digit() || (b'a' <= b && b <= b'f')
}

// Whether each of eight bytes is such a digit.
fn are_hex(bytes: &[u8; 8]) -> bool
    ensures { result ≡ list_all is_hex bytes.now }
{
    let mut all = true;
    for b in bytes {
        all &= is_hex(*b);
    }
    all
}

// What is left of a text behind eight such digits.
fn behind_eight(text: &[u8]) -> Option<&[u8]>
    ensures hex { IfSome result (λ rest. hex_len text.now ≡ 8 + hex_len rest.now) }
    ensures length { IfSome result (λ rest. length text.now ≡ 8 + length rest.now) }
{
    let (bytes, rest) = text.split_first_chunk::<8>()?;
    if are_hex(bytes) { Some(rest) } else { None }
}

// How many such digits a text begins with, which has few.
fn short_hex_len(text: &[u8]) -> usize
    ensures value { result ≡ hex_len text.now }
    ensures within { result ≤ length text.now }
{
    text.iter().take_while(|b| is_hex(**b)).count()
}

// How many such digits a text begins with. They are read eight at a time, since build ids and addresses have many.
pub fn hex_len(text: &[u8]) -> usize
    ensures value { result ≡ hex_len text.now }
    ensures within { result ≤ length text.now }
{
    let mut len = 0;
    let mut rest = text;
    while let Some(after) = behind_eight(rest) {
        len += 8;
        rest = after;
    }
    len + short_hex_len(rest)
}

// What is left of a text behind this beginning.
pub fn behind<'t>(text: &'t [u8], start: &[u8]) -> Option<&'t [u8]>
    ensures { option_map (λ r. r.now) result ≡ behind start.now text.now }
{
    text.strip_prefix(start)
}

// What is left of a text before this end.
pub fn before<'t>(text: &'t [u8], end: &[u8]) -> Option<&'t [u8]>
    ensures { option_map (λ r. r.now) result ≡ before end.now text.now }
{
    text.strip_suffix(end)
}

// What is left of a text behind hexadecimal digits, of which there is one.
pub fn behind_hex(text: &[u8]) -> Option<&[u8]>
    ensures { option_map (λ r. r.now) result ≡ behind_hex text.now }
{
    let len = hex_len(text);
    if len == 0 {
        return None;
    }
    let (_, rest) = text.split_at(len);
    Some(rest)
}

// What is left of a text behind decimal digits, of which there is one.
pub fn behind_digits(text: &[u8]) -> Option<&[u8]>
    ensures { option_map (λ r. r.now) result ≡ behind_digits text.now }
{
    let len = digits_len(text);
    if len == 0 {
        return None;
    }
    let (_, rest) = text.split_at(len);
    Some(rest)
}

// The number below the limit that a text begins with, and what is left behind it.
pub fn number_of(text: &[u8]) -> Option<(u32, &[u8])>
    ensures { option_map (λ r. (r.0, r.1.now)) result ≡ number_of text.now }
{
    let (number, len) = capped_number(text, NUMBER_LIMIT);
    if len == 0 || number >= NUMBER_LIMIT {
        return None;
    }
    let (_, rest) = text.split_at(len);
    Some((number, rest))
}

// The first piece of a text that is cut at its line feeds, and what is left behind the line feed; none where nothing is
// left.
pub fn next_piece(text: &[u8]) -> Option<(&[u8], &[u8])>
    ensures pieces { MatchOption result (pieces text.now ≡ []) (
        λ next. pieces text.now ≡ next.0.now ∷ pieces next.1.now
        ) }
    ensures shorter { IfSome result (λ next. length next.1.now < length text.now) }
{
    if text.is_empty() {
        return None;
    }
    let (piece, after) = text.split_at(line_len(text));
    match after.split_first() {
        Some((_, rest)) => Some((piece, rest)),
        None => Some((piece, after)),
    }
}
