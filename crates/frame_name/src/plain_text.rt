//! Texts as frames of any length.

ghost use Rattle.std.specs.Prelude.{◌≡◌, ◌≤◌, map, length, IfOk};
ghost use Rattle.std.specs.List.{prefix_len, suffix_len};
ghost use Rattle.std.specs.Str.Lossy.{utf8_lossy};
ghost use Rattle.frame_name.specs.Plain.{is_control, plain_byte, is_blank, trimmed, without_blanks, is_remark, or_unknown, plain};

use std::alloc::{AllocError, Global};

/// What stands for a function that isn't known.
pub const UNKNOWN: &[u8] = b"??";

/// Whether a byte is below 32, or 127.
pub fn is_control(b: u8) -> bool
    ensures { result ≡ is_control b }
{
    b < b' ' || b == 127
}

fn plain_byte(b: u8) -> u8
    ensures { result ≡ plain_byte b }
{
    if is_control(b) {
        return b' ';
    }
    if b == b';' { b':' } else { b }
}

// How many blanks a text begins with.
fn first_blanks(text: &[u8]) -> usize
    ensures value { result ≡ prefix_len is_blank text.now }
    ensures within { result ≤ length text.now }
{
    text.iter().take_while(|b| **b == b' ').count()
}

// How many blanks it ends with.
fn last_blanks(text: &[u8]) -> usize
    ensures value { result ≡ suffix_len is_blank text.now }
    ensures within { result ≤ length text.now }
{
    text.iter().rev().take_while(|b| **b == b' ').count()
}

// A text without the blanks at both ends.
fn trimmed(text: &[u8]) -> &[u8]
    ensures { result.now ≡ trimmed text.now }
{
    let text = &text[first_blanks(text)..];
    &text[..text.len() - last_blanks(text)]
}

/// Whether a frame is a remark of this program: it stands in parentheses, and isn't one of the functions that compilers
/// write with `(anonymous namespace)`.
pub fn is_remark(text: &[u8]) -> bool
    ensures { result ≡ is_remark text.now }
{
    text.starts_with(b"(") && text.ends_with(b")") && !text.starts_with(b"(anonymous")
}

// The bytes of a text as those of a frame.
fn plain_bytes(alloc: Global, text: &[u8]) -> Result<Vec<u8>, AllocError>
    ensures { IfOk result (λ bytes. bytes.items ≡ map plain_byte (utf8_lossy text.now)) }
{
    let text = String::from_utf8_lossy(alloc, text)?;
    text.as_bytes()
        .iter()
        .map(|b| plain_byte(*b))
        .collect(alloc)
}

// The text, or `??` where there is none, and with `??` before it where it would be taken for a remark.
fn or_unknown(alloc: Global, text: &[u8]) -> Result<Vec<u8>, AllocError>
    ensures { IfOk result (λ known. known.items ≡ or_unknown text.now) }
{
    if text.is_empty() {
        return Vec::from_slice(alloc, UNKNOWN);
    }
    if !is_remark(text) {
        return Vec::from_slice(alloc, text);
    }
    let mut known = Vec::from_slice(alloc, UNKNOWN)?;
    known.extend_from_slice(text)?;
    Ok(known)
}

/// A text as a frame of any length: UTF-8 with no control byte, no `;` and no blank at its ends, never empty, and no
/// remark.
#[tactic(auto, unfolding(crate::specs::Plain::plain))]
pub fn plain(alloc: Global, text: &[u8]) -> Result<Vec<u8>, AllocError>
    ensures { IfOk result (λ frame. frame.items ≡ plain text.now) }
{
    let bytes = plain_bytes(alloc, text)?;
    or_unknown(alloc, trimmed(&bytes))
}
