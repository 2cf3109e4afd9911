//! The function of a call and the file that it is in.

ghost use Rattle.std.specs.Prelude.{◌≡◌, ◌≤◌, ◌<◌, ℕ, nat_le, option_map, is_some, length, drop, codes};
ghost use Rattle.stack_text.specs.Texts.{begins, before, first_where};
ghost use Rattle.stack_text.specs.Lines.{undeleted, is_file_if, file_follows_if, file_follows, binary_start, call_parted, call_tail};
ghost use Rattle.stack_text.specs.LineViews.{line_view};

use crate::lines::Line;
use crate::texts::{before, behind};
use text_lines::after_blanks;

// The name of a file before ` (deleted)`, if it ends so.
fn undeleted(file: &[u8]) -> &[u8]
    ensures { result.now ≡ undeleted file.now }
{
    before(file, b" (deleted)").unwrap_or(file)
}

// Whether the name of a file ends with ` (deleted)`.
fn is_deleted(file: &[u8]) -> bool
    ensures { result ≡ is_some (before (codes " (deleted)") file.now) }
{
    before(file, b" (deleted)").is_some()
}

// From which place on brackets that open behind ` - ` are closed by the end of the text, or by what stands before
// ` (deleted)` there, and not earlier.
fn brackets_start(text: &[u8]) -> usize
    ensures { (i : ℕ) → i < length text.now →
        file_follows (drop i text.now) ≡ file_follows_if (nat_le result i) (drop i text.now) }
{
    let file = undeleted(text);
    let Some((last, inner)) = file.split_last() else {
        return text.len();
    };
    if *last != b']' {
        return text.len();
    }
    match memchr::memrchr(b']', inner) {
        Some(closing) => closing.saturating_sub(3),
        None => 0,
    }
}

// Whether a text is a path, or a name in brackets if they are closed.
fn is_file_if(closed: bool, text: &[u8]) -> bool
    ensures { result ≡ is_file_if closed text.now }
{
    match text.split_first() {
        Some((b, _)) => *b == b'/' || (*b == b'[' && closed),
        None => false,
    }
}

// Whether ` - ` and such a file follow.
fn file_follows_if(closed: bool, text: &[u8]) -> bool
    ensures { result ≡ file_follows_if closed text.now }
{
    match behind(text, b" - ") {
        Some(file) => is_file_if(closed, file),
        None => false,
    }
}

// How many bytes stand before ` - ` and a path or a name in brackets; all where there is none.
fn file_start(text: &[u8]) -> usize
    ensures value { result ≡ first_where file_follows text.now }
    ensures within { result ≤ length text.now }
{
    let brackets = brackets_start(text);
    for i in 0..text.len() {
        let (_, rest) = text.split_at(i);
        if file_follows_if(i >= brackets, rest) {
            return i;
        }
    }
    text.len()
}

// Whether ` - ` follows.
fn name_follows(text: &[u8]) -> bool
    ensures { result ≡ begins (codes " - ") text.now }
{
    behind(text, b" - ").is_some()
}

// How many bytes stand before ` - `; all where there is none.
fn name_start(text: &[u8]) -> usize
    ensures value { result ≡ first_where (begins (codes " - ")) text.now }
    ensures within { result ≤ length text.now }
{
    for i in 0..text.len() {
        let (_, rest) = text.split_at(i);
        if name_follows(rest) {
            return i;
        }
    }
    text.len()
}

// How many bytes stand before ` - ` and the file that a function is in.
fn binary_start(text: &[u8]) -> usize
    ensures value { result ≡ binary_start text.now }
    ensures within { result ≤ length text.now }
{
    let start = file_start(text);
    if start < text.len() {
        return start;
    }
    name_start(text)
}

// What is left of a text behind three bytes.
fn behind_dash(text: &[u8]) -> &[u8]
    ensures { result.now ≡ drop 3 text.now }
{
    let (_, rest) = text.split_at(text.len().min(3));
    rest
}

// A call whose function and file are parted behind so many bytes.
fn call_parted(number: u32, text: &[u8], start: usize) -> Line<'_>
    requires { start ≤ length text.now }
    ensures { line_view result ≡ call_parted number text.now start }
{
    let (name, rest) = text.split_at(start);
    let file = behind_dash(rest);
    Line::Call {
        number,
        name: after_blanks(name),
        binary: undeleted(file),
        is_deleted: is_deleted(file),
    }
}

// A call by what stands behind its address: nothing, or a blank, the function and the file.
pub fn call_tail(number: u32, text: &[u8]) -> Option<Line<'_>>
    ensures { option_map line_view result ≡ call_tail number text.now }
{
    let Some(b) = text.first() else {
        return Some(Line::Call {
            number,
            name: b"",
            binary: b"",
            is_deleted: false,
        });
    };
    if *b == b' ' || *b == b'\t' {
        Some(call_parted(number, text, binary_start(text)))
    } else {
        None
    }
}
