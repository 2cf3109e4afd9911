//! The lines of a text, the words of a line, and the numbers that words write.
//!
//! A line ends at a line feed or at the end of the text, and a carriage return directly before it belongs to the line's
//! end. A text that ends with a line feed has no line after it. Words are the longest runs of bytes other than spaces
//! and tabs.

ghost use Rattle.std.specs.Prelude.{◌≡◌, ◌<◌, ◌≤◌, ◌+◌, ◌^◌, is_some, length, take, drop, min, MatchOption, IfSome, Some, [], ◌∷◌, option_map};
ghost use Rattle.std.specs.Char.{is_ascii_digit};
ghost use Rattle.std.specs.List.{list_all};
ghost use Rattle.std.specs.Str.{bytes_eq};
ghost use Rattle.text_lines.specs.Lines.{is_blank, line_len, word_len, blanks_len, lines, words, without_return, after_blanks, after_word, begins_with_word_and_blank, begins_with_number_and_blank, number_in, says_nothing};

use rank_set::digits::{capped_number, capped_value};

fn is_blank(b: u8) -> bool
    ensures { result ≡ is_blank b }
{
    b == b' ' || b == b'\t'
}

/// How many bytes stand before the first line feed of a text.
pub fn line_len(text: &[u8]) -> usize
    ensures value { result ≡ line_len text.now }
    ensures within { result ≤ length text.now }
{
    memchr::memchr(b'\n', text).unwrap_or(text.len())
}

// How many bytes are before the next blank.
fn word_len(text: &[u8]) -> usize
    ensures value { result ≡ word_len text.now }
    ensures within { result ≤ length text.now }
{
    text.iter().take_while(|b| !is_blank(**b)).count()
}

// How many blanks a text begins with.
fn blanks_len(text: &[u8]) -> usize
    ensures value { result ≡ blanks_len text.now }
    ensures within { result ≤ length text.now }
{
    text.iter().take_while(|b| is_blank(**b)).count()
}

// A line without the carriage return at its end.
fn trimmed(line: &[u8]) -> &[u8]
    ensures { result.now ≡ without_return line.now }
{
    match line.split_last() {
        Some((last, front)) => { if *last == b'\r' { front } else { line } }
        None => line,
    }
}

/// The first line of a text, and what is left after its end; none where nothing is left.
pub fn next_line(text: &[u8]) -> Option<(&[u8], &[u8])>
    ensures lines { MatchOption result (lines text.now ≡ []) (
        λ next. lines text.now ≡ next.0.now ∷ lines next.1.now
        ) }
    ensures shorter { IfSome result (λ next. length next.1.now < length text.now) }
{
    if text.is_empty() {
        return None;
    }
    let (line, after) = text.split_at(line_len(text));
    match after.split_first() {
        Some((_, rest)) => Some((trimmed(line), rest)),
        None => Some((trimmed(line), after)),
    }
}

// A line of UTF-8 without the carriage return at its end.
fn trimmed_text(line: &str) -> &str
    ensures { result.now ≡ without_return line.now }
{
    match line.as_bytes().split_last() {
        Some((last, front)) => {
            if *last == b'\r' {
                let (front, _) = line.split_at(front.len());
                front
            } else {
                line
            }
        }
        None => line,
    }
}

/// The first line of a text in UTF-8, which is UTF-8 too, and what is left after its end; none where nothing is left.
pub fn next_text_line(text: &str) -> Option<(&str, &str)>
    ensures lines { MatchOption result (lines text.now ≡ []) (
        λ next. lines text.now ≡ next.0.now ∷ lines next.1.now
        ) }
    ensures shorter { IfSome result (λ next. length next.1.now < length text.now) }
{
    if text.is_empty() {
        return None;
    }
    let (line, after) = text.split_at(line_len(text.as_bytes()));
    if after.is_empty() {
        return Some((trimmed_text(line), after));
    }
    let (_, rest) = after.split_at(1);
    Some((trimmed_text(line), rest))
}

/// What is left of a line after the blanks that it begins with.
pub fn after_blanks(line: &[u8]) -> &[u8]
    ensures value { result.now ≡ after_blanks line.now }
    ensures within { length result.now ≤ length line.now }
{
    let (_, after) = line.split_at(blanks_len(line));
    after
}

/// The first word of a line, and what is left just after it; none where there is no word.
pub fn next_word(line: &[u8]) -> Option<(&[u8], &[u8])>
    ensures words { MatchOption result (words line.now ≡ []) (
        λ next. words line.now ≡ next.0.now ∷ words next.1.now
        ) }
    ensures rest { IfSome result (λ next. next.1.now ≡ after_word line.now) }
    ensures shorter { IfSome result (λ next. length next.1.now < length line.now) }
{
    let rest = after_blanks(line);
    if rest.is_empty() {
        return None;
    }
    Some(rest.split_at(word_len(rest)))
}

/// The word that a line begins with, and what is left after the one blank behind it. It is none exactly if the line
/// does not begin with a word that a blank follows: if it is empty, begins with a blank, or has no blank.
pub fn cut_word(line: &[u8]) -> Option<(&[u8], &[u8])>
    ensures words { IfSome result (λ cut. words line.now ≡ cut.0.now ∷ words cut.1.now) }
    ensures rest { IfSome result (λ cut. after_blanks (after_word line.now) ≡ after_blanks cut.1.now) }
    ensures length { IfSome result (λ cut. length cut.0.now + length cut.1.now + 1 ≡ length line.now) }
    ensures front { IfSome result (λ cut. cut.0.now ≡ take (word_len line.now) line.now) }
    ensures behind { IfSome result (λ cut. cut.1.now ≡ drop (word_len line.now + 1) line.now) }
    ensures exact { is_some result ≡ begins_with_word_and_blank line.now }
{
    let (word, after) = line.split_at(word_len(line));
    match after.split_first() {
        Some((_, rest)) if !word.is_empty() => Some((word, rest)),
        _ => None,
    }
}

/// The number below a limit that a line begins with as its first word, and what is left after the one blank behind it.
/// It is none exactly if the line does not begin with digits that write such a number and that a blank follows.
#[inline]
pub fn cut_number(line: &[u8], limit: u32) -> Option<(u32, &[u8])>
    requires { limit < 2 ^ 28 }
    ensures words { IfSome result (λ cut. words line.now ≡ take (word_len line.now) line.now ∷ words cut.1.now) }
    ensures number { IfSome result (λ cut. number_in (take (word_len line.now) line.now) ≡ Some cut.0) }
    ensures below { IfSome result (λ cut. cut.0 < limit) }
    ensures rest { IfSome result (λ cut. after_blanks (after_word line.now) ≡ after_blanks cut.1.now) }
    ensures behind { IfSome result (λ cut. cut.1.now ≡ drop (word_len line.now + 1) line.now) }
    ensures exact { is_some result ≡ begins_with_number_and_blank limit line.now }
{
    let (number, len) = capped_number(line, limit);
    let (_, after) = line.split_at(len);
    match after.split_first() {
        Some((b, rest)) if is_blank(*b) && number < limit && len > 0 => Some((number, rest)),
        _ => None,
    }
}

/// Whether a word is this one.
pub fn is_word(word: &[u8], this: &[u8]) -> bool
    ensures { result ≡ bytes_eq word.now this.now }
{
    word == this
}

/// Whether a line says nothing: it begins with `#`, or has no word.
pub fn says_nothing(line: &[u8]) -> bool
    ensures { result ≡ says_nothing line.now }
{
    match line.split_first() {
        Some((b, _)) => *b == b'#' || next_word(line).is_none(),
        None => true,
    }
}

/// Whether each byte is a digit.
pub fn are_digits(word: &[u8]) -> bool
    ensures { result ≡ list_all is_ascii_digit word.now }
{
    word.iter().all(|b| b.is_ascii_digit())
}

/// The number that a word writes, or the limit where it is more; none where the word is not one or more digits. A word
/// of any length is read, and zeros in front mean nothing.
pub fn number_in(word: &[u8], limit: u32) -> Option<u32>
    requires { limit < 2 ^ 28 }
    ensures { result ≡ option_map (min limit) (number_in word.now) }
{
    if word.is_empty() || !are_digits(word) {
        return None;
    }
    Some(capped_value(word, limit))
}
