//! Texts that are too long, by their ends and their SHA-256.

ghost use Rattle.std.specs.Prelude.{◌≡◌, ◌≤◌, ◌<◌, length, IfOk};
ghost use Rattle.std.specs.List.{prefix_len, suffix_len};
ghost use Rattle.frame_name.specs.Fitted.{is_inside, whole_front, whole_back, shortened, within, fitted};

use sha2::{Digest, Sha256};
use std::alloc::{AllocError, Global};

// Names have at most so many bytes. A path's frame has room for more: for a source file and a line behind the name.
const NAME_BYTES: usize = 740;

// So many bytes of either end are left of a longer name.
const NAME_ENDS: usize = 320;

// Whether a byte goes on with a character of UTF-8 that an earlier byte begins.
fn is_inside(b: u8) -> bool
    ensures { result ≡ is_inside b }
{
    b >= 128 && b < 192
}

// How many bytes at a text's end are inside of characters.
fn last_inside(text: &[u8]) -> usize
    ensures { result ≡ suffix_len is_inside text.now }
{
    text.iter().rev().take_while(|b| is_inside(**b)).count()
}

// How many bytes at its beginning are.
fn first_inside(text: &[u8]) -> usize
    ensures value { result ≡ prefix_len is_inside text.now }
    ensures within { result ≤ length text.now }
{
    text.iter().take_while(|b| is_inside(**b)).count()
}

// The whole characters among the first `n` bytes.
fn whole_front(n: usize, text: &[u8]) -> &[u8]
    requires { n < length text.now }
    ensures { result.now ≡ whole_front n text.now }
{
    &text[..n.saturating_sub(last_inside(&text[..n + 1]))]
}

// The whole characters among the last `n` bytes.
fn whole_back(n: usize, text: &[u8]) -> &[u8]
    requires { n < length text.now }
    ensures { result.now ≡ whole_back n text.now }
{
    let back = &text[text.len() - n..];
    &back[first_inside(back)..]
}

// A text by its ends of `n` bytes and the digits of its SHA-256.
#[tactic(auto, unfolding(crate::specs::Fitted::shortened))]
fn shortened(alloc: Global, n: usize, text: &[u8]) -> Result<Vec<u8>, AllocError>
    requires { n < length text.now }
    ensures { IfOk result (λ short. short.items ≡ shortened n text.now) }
{
    let digits = hex::encode(alloc, Sha256::digest(text))?;
    let mut short = Vec::from_slice(alloc, whole_front(n, text))?;
    short.extend_from_slice(b"..(")?;
    short.extend_from_slice(digits.as_bytes())?;
    short.extend_from_slice(b")..")?;
    short.extend_from_slice(whole_back(n, text))?;
    Ok(short)
}

/// A text that stays if it has at most `most` bytes; of a longer one its ends of at most `n` bytes, and the digits of
/// its SHA-256 between them.
#[tactic(auto, unfolding(crate::specs::Fitted::within))]
pub fn within(alloc: Global, most: usize, n: usize, text: Vec<u8>) -> Result<Vec<u8>, AllocError>
    requires { n ≤ most }
    ensures { IfOk result (λ short. short.items ≡ within most n text.items) }
{
    if text.len() <= most {
        return Ok(text);
    }
    shortened(alloc, n, &text)
}

/// A name of at most 740 bytes. It stays if it has no more; else it is given by its ends and its SHA-256.
pub fn fitted(alloc: Global, name: Vec<u8>) -> Result<Vec<u8>, AllocError>
    ensures { IfOk result (λ short. short.items ≡ fitted name.items) }
{
    within(alloc, NAME_BYTES, NAME_ENDS, name)
}
