//! The marks that compilers put on copies of a function, and linkers on versions.

ghost use Rattle.std.specs.Prelude.{◌≡◌, ◌≤◌, option_map, length};
ghost use Rattle.std.specs.Char.{is_ascii_digit};
ghost use Rattle.std.specs.List.{list_all, suffix_len};
ghost use Rattle.symbol_name.specs.Copies.{is_number, is_copy_word, without_number, without_copy_word, without_part, without_parts, without_bracket, is_version_byte, is_version, without_version, without_mark, without_copies};
ghost use Rattle.symbol_name.specs.Repeats.{settled};
ghost use Rattle.symbol_name.specs.Texts.{end_run, before_run};

use crate::text::{before, begins_upper, begins_with, cut_word, is_one_of};

// The optimizations that make copies, parted by blanks.
const OPTIMIZATIONS: &[u8] = b"isra part constprop cold lto_priv localalias llvm default";

fn are_digits(word: &[u8]) -> bool
    ensures { result ≡ list_all is_ascii_digit word.now }
{
    word.iter().all(|b| b.is_ascii_digit())
}

// Whether a word is one or more digits.
fn is_number(word: &[u8]) -> bool
    ensures { result ≡ is_number word.now }
{
    !word.is_empty() && are_digits(word)
}

// Whether a word says what a copy was made for: an optimization, or a processor.
fn is_copy_word(word: &[u8]) -> bool
    ensures { result ≡ is_copy_word word.now }
{
    is_one_of(word, OPTIMIZATIONS)
        || begins_with(word, b"avx")
        || begins_with(word, b"sse")
        || begins_with(word, b"fma")
        || begins_with(word, b"arch_")
}

// A text without the `.` and the number at its end.
fn without_number(text: &[u8]) -> Option<&[u8]>
    ensures { option_map (λ r. r.now) result ≡ without_number text.now }
{
    let (rest, word) = cut_word(text);
    let Some(left) = before(rest, b".") else {
        return None;
    };
    if is_number(word) { Some(left) } else { None }
}

// A text without the numbers at its end.
fn without_numbers(text: &[u8]) -> &[u8]
    ensures { result.now ≡ settled without_number text.now }
{
    let mut left = text;
    while let Some(shorter) = without_number(left) {
        left = shorter;
    }
    left
}

// A text without the `.` and the word for a copy at its end.
fn without_copy_word(text: &[u8]) -> Option<&[u8]>
    ensures { option_map (λ r. r.now) result ≡ without_copy_word text.now }
{
    let (rest, word) = cut_word(text);
    let Some(left) = before(rest, b".") else {
        return None;
    };
    if is_copy_word(word) { Some(left) } else { None }
}

// A text without the word for a copy at its end and the numbers behind it.
fn without_part(text: &[u8]) -> Option<&[u8]>
    ensures { option_map (λ r. r.now) result ≡ without_part text.now }
{
    without_copy_word(without_numbers(text))
}

// A text without all such words at its end.
fn without_more_parts(text: &[u8]) -> &[u8]
    ensures { result.now ≡ settled without_part text.now }
{
    let mut left = text;
    while let Some(shorter) = without_part(left) {
        left = shorter;
    }
    left
}

// A text without all such words at its end, if there is one.
fn without_parts(text: &[u8]) -> Option<&[u8]>
    ensures { option_map (λ r. r.now) result ≡ without_parts text.now }
{
    Some(without_more_parts(without_part(text)?))
}

// A text without such words in brackets at its end.
fn without_bracket(text: &[u8]) -> Option<&[u8]>
    ensures { option_map (λ r. r.now) result ≡ without_bracket text.now }
{
    before(without_parts(before(text, b"]")?)?, b" [clone ")
}

fn is_version_byte(b: u8) -> bool
    ensures { result ≡ is_version_byte b }
{
    !(b == b' ' || b == b'@')
}

// How many bytes the version at the end of a text has.
fn version_len(text: &[u8]) -> usize
    ensures value { result ≡ suffix_len is_version_byte text.now }
    ensures within { result ≤ length text.now }
{
    text.iter()
        .rev()
        .take_while(|b| is_version_byte(**b))
        .count()
}

// A text cut before the version at its end.
fn cut_version(text: &[u8]) -> (&[u8], &[u8])
    ensures prefix { result.0.now ≡ before_run is_version_byte text.now }
    ensures version { result.1.now ≡ end_run is_version_byte text.now }
{
    text.split_at(text.len() - version_len(text))
}

// Whether a version may stand behind a single `@`.
fn is_version(version: &[u8]) -> bool
    ensures { result ≡ is_version version.now }
{
    begins_upper(version) || version == b"plt".as_slice()
}

// A text without the version at its end.
fn without_version(text: &[u8]) -> Option<&[u8]>
    ensures { option_map (λ r. r.now) result ≡ without_version text.now }
{
    let (rest, version) = cut_version(text);
    if let Some(left) = before(rest, b"@@") {
        return Some(left);
    }
    if is_version(version) {
        before(rest, b"@")
    } else {
        None
    }
}

// A name without the mark at its end; none where there is no mark, or it is all of the name.
fn without_mark(name: &[u8]) -> Option<&[u8]>
    ensures { option_map (λ r. r.now) result ≡ without_mark name.now }
{
    let left = match without_bracket(name) {
        Some(left) => left,
        None => match without_part(name) {
            Some(left) => left,
            None => without_version(name)?,
        },
    };
    if left.is_empty() { None } else { Some(left) }
}

/// A symbol without the marks at its end that compilers put on copies of a function (` [clone .isra.0]`,
/// `.part.0.isra.3`, `.llvm.123`, `.cold`) and linkers on versions (`@@GLIBC_2.34`, `@GLIBC_2.2.5`, `@plt`). Marks of
/// parallel regions, as `._omp_fn.0`, stay. A mark is never all of a name.
pub fn without_copies(name: &[u8]) -> &[u8]
    ensures { result.now ≡ without_copies name.now }
{
    let mut left = name;
    while let Some(shorter) = without_mark(left) {
        left = shorter;
    }
    left
}
