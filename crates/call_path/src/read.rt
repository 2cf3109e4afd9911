//! The errors in the text of a call path.

ghost use Rattle.std.specs.Prelude.{◌≡◌, ◌<◌, ◌+◌, ◌^◌, true, false, length, position, IfSome, IfNone, IfOk, IfErr, OnOk, None, Some};
ghost use Rattle.std.specs.List.{list_any};
ghost use Rattle.call_path.specs.Reading.{frames, first_error, frame_error, is_control};

use crate::{FRAME_BYTES, FRAME_LIMIT};
use std::alloc::AllocError;

/// Why the text of a call path is refused. Frames and byte offsets count from 0.
#[derive(Debug, PartialEq, Eq, Clone, Copy)]
pub enum PathError {
    /// The frame with this number has no bytes.
    EmptyFrame(usize),
    /// At this offset there is a byte below 0x20, or 0x7F.
    ControlByte(usize),
    /// The frame with this number has more than 1,023 bytes.
    FrameTooLong(usize),
    /// There are more than 128 frames.
    TooDeep,
    /// Out of memory.
    OutOfMemory,
}

impl From<AllocError> for PathError {
    ghost use Rattle.std.specs.Prelude.{◌≡◌};
    ghost use Rattle.call_path.specs.declared.read.PathError.TheVariants.{OutOfMemory};

    ghost from_gives = { λ _ e. e ≡ OutOfMemory };

    fn from(_: AllocError) -> Self {
        PathError::OutOfMemory
    }
}

fn is_control(b: u8) -> bool
    ensures { result ≡ is_control b }
{
    (b < 0x20) | (b == 0x7f)
}

// Whether a text has a control byte. No byte ends the loop, so that many are tested at once.
fn has_control(text: &[u8]) -> bool
    ensures { result ≡ list_any is_control text.now }
{
    let mut any = false;
    for b in text {
        any |= is_control(*b);
    }
    any
}

// The index of the first control byte.
fn control_at(frame: &[u8]) -> Option<usize>
    ensures value { result ≡ position is_control frame.now }
    ensures within { IfSome result (λ n. n < length frame.now) }
{
    frame.iter().position(|b| is_control(*b))
}

// The error of frame `i`, which begins at a offset of the text. Where the frame is known to be clean, no control byte
// is looked for.
#[tactic(auto, unfolding(crate::specs::Reading::frame_error))]
fn frame_error(i: usize, offset: usize, frame: &[u8], clean: bool) -> Option<PathError>
    requires within { offset + length frame.now < 2 ^ 64 }
    requires clean { clean ≡ true → list_any is_control frame.now ≡ false }
    ensures error { result ≡ frame_error i offset frame.now }
    ensures within_limit { IfNone result (i < FRAME_LIMIT) }
{
    if i >= FRAME_LIMIT {
        return Some(PathError::TooDeep);
    }
    if frame.is_empty() {
        return Some(PathError::EmptyFrame(i));
    }
    if frame.len() > FRAME_BYTES {
        return Some(PathError::FrameTooLong(i));
    }
    if clean {
        return None;
    }
    match control_at(frame) {
        Some(n) => Some(PathError::ControlByte(offset + n)),
        None => None,
    }
}

/// The number of frames of a text, or its first error.
pub fn frame_count(text: &[u8]) -> Result<usize, PathError>
    ensures count { IfOk result (λ count. count ≡ length (frames text.now)) }
    ensures ok { OnOk result (first_error 0 0 (frames text.now) ≡ None) }
    ensures err { IfErr result (λ e. first_error 0 0 (frames text.now) ≡ Some e) }
{
    let clean = !has_control(text);
    let mut i = 0;
    let mut start = 0;
    for end in memchr::memchr_iter(b';', text) {
        if let Some(error) = frame_error(i, start, &text[start..end], clean) {
            return Err(error);
        }
        i += 1;
        start = end + 1;
    }
    match frame_error(i, start, &text[start..], clean) {
        Some(error) => Err(error),
        None => Ok(i + 1),
    }
}
