//! The text of a capture: a file of frames, one after another.
//!
//! [`capture_text`] reads the frames piece by piece and prints each packet: a line that says what it is, and below it
//! the rows of its tree, if it has one. Bytes that aren't a sequence of whole frames are refused by the offset of the
//! first field that breaks its rule, or in which they end.
//!
//! ```text
//! match capture_text::<OwnedTree>(alloc, &bytes) {
//!     Ok(text) => // the packets
//!     Err(FrameError::Refused { at, reason }) => // what is wrong, and where
//!     Err(FrameError::OutOfMemory) => ..
//! }
//! ```
//!
//! A contract sees the text as the one of the messages that the bytes spell: `text_of_capture` in
//! `specs/CaptureText.antt` of `capture_of` in `specs/Captures.antt`. That these messages spell just these bytes is a
//! law, [`captures_are_frames`]. `specs/Rows.antt` has small captures as examples.
#![tactic(auto)]

mod laws;
mod packet_text;
mod printer;
mod reading;

pub use laws::captures_are_frames;
pub use reading::capture_text;
