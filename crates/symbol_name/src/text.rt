//! Parts of a text.

ghost use Rattle.std.specs.Prelude.{◌≡◌, ◌+◌, ◌<◌, ◌≤◌, option_map, length};
ghost use Rattle.std.specs.List.{list_all, suffix_len};
ghost use Rattle.symbol_name.specs.Texts.{behind, begins_with, before, ends_with, is_word_byte, is_word, begins_upper, begins_lower, offset_of, cut_at, end_run, before_run, is_separator, is_one_of};

/// What is left of a text behind this beginning.
pub fn behind<'t>(text: &'t [u8], start: &[u8]) -> Option<&'t [u8]>
    ensures { option_map (λ r. r.now) result ≡ behind start.now text.now }
{
    text.strip_prefix(start)
}

/// Whether a text begins so.
pub fn begins_with(text: &[u8], start: &[u8]) -> bool
    ensures { result ≡ begins_with start.now text.now }
{
    behind(text, start).is_some()
}

/// What is left of a text before this end.
pub fn before<'t>(text: &'t [u8], end: &[u8]) -> Option<&'t [u8]>
    ensures { option_map (λ r. r.now) result ≡ before end.now text.now }
{
    text.strip_suffix(end)
}

/// Whether a text ends so.
pub fn ends_with(text: &[u8], end: &[u8]) -> bool
    ensures { result ≡ ends_with end.now text.now }
{
    before(text, end).is_some()
}

/// Whether a byte is a letter, a digit or `_`.
pub fn is_word_byte(b: u8) -> bool
    ensures { result ≡ is_word_byte b }
{
    b.is_ascii_alphanumeric() || b == b'_'
}

/// Whether each byte of a text is one of them.
pub fn are_word_bytes(text: &[u8]) -> bool
    ensures { result ≡ list_all is_word_byte text.now }
{
    text.iter().all(|b| is_word_byte(*b))
}

/// Whether a text is one or more of them.
pub fn is_word(text: &[u8]) -> bool
    ensures { result ≡ is_word text.now }
{
    !text.is_empty() && are_word_bytes(text)
}

/// Whether a text begins with an upper-case letter.
pub fn begins_upper(text: &[u8]) -> bool
    ensures { result ≡ begins_upper text.now }
{
    match text.split_first() {
        Some((b, _)) => b.is_ascii_uppercase(),
        None => false,
    }
}

/// Whether a text begins with a lower-case letter.
pub fn begins_lower(text: &[u8]) -> bool
    ensures { result ≡ begins_lower text.now }
{
    match text.split_first() {
        Some((b, _)) => b.is_ascii_lowercase(),
        None => false,
    }
}

// How many letters, digits and `_` stand at the end of a text.
fn word_len(text: &[u8]) -> usize
    ensures value { result ≡ suffix_len is_word_byte text.now }
    ensures within { result ≤ length text.now }
{
    text.iter().rev().take_while(|b| is_word_byte(**b)).count()
}

/// A text cut before the longest run of letters, digits and `_` at its end.
pub fn cut_word(text: &[u8]) -> (&[u8], &[u8])
    ensures prefix { result.0.now ≡ before_run is_word_byte text.now }
    ensures word { result.1.now ≡ end_run is_word_byte text.now }
{
    text.split_at(text.len() - word_len(text))
}

// The offset at which this part first stands in a text; the text's length where it doesn't stand there.
fn offset_of(text: &[u8], part: &[u8]) -> usize
    ensures value { result ≡ offset_of part.now text.now }
    ensures within { result ≤ length text.now }
{
    for i in 0..text.len() {
        let (_, rest) = text.split_at(i);
        if begins_with(rest, part) {
            return i;
        }
    }
    text.len()
}

/// What stands before and behind a part of a text, where the part first stands there.
pub fn cut_at<'t>(text: &'t [u8], part: &[u8]) -> Option<(&'t [u8], &'t [u8])>
    ensures { option_map (λ r. (r.0.now, r.1.now)) result ≡ cut_at part.now text.now }
{
    let (prefix, rest) = text.split_at(offset_of(text, part));
    Some((prefix, behind(rest, part)?))
}

/// Whether a name is one of those that stand in a text, parted by blanks and line feeds.
pub fn is_one_of(name: &[u8], names: &[u8]) -> bool
    ensures { result ≡ is_one_of names.now name.now }
{
    names
        .split(|b| *b == b' ' || *b == b'\n')
        .any(|one| one == name)
}
