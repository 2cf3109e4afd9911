//! Captures, read in pieces.

ghost use Rattle.std.specs.Prelude.{◌≡◌, Ok, IfOk, IfErr};
ghost use Rattle.packet_frame.specs.Answers.{result_map};
ghost use Rattle.capture_text.specs.Captures.{capture_of, IsRefused};
ghost use Rattle.capture_text.specs.CaptureText.{text_of_capture};

use crate::printer::Printer;
use packet_frame::{Feeder, FrameError};
use prefix_tree::PrefixTree;
use std::alloc::Global;

// How many bytes are read at once.
const PIECE: usize = 4_096;

/// The text of a capture, a file of frames one after another: for each frame a line with the offset of its first byte,
/// below it the rows of its tree besides the root, and at the end the number of frames. `T` is how trees are kept.
///
/// If the bytes are not whole frames, the result is the refusal of the first bytes that are no frame, at their offset
/// in the capture. It is `Short` if the last frame is not whole.
pub fn capture_text<T: PrefixTree>(alloc: Global, bytes: &[u8]) -> Result<Vec<u8>, FrameError>
    ensures text { IfOk result (λ text. result_map text_of_capture (capture_of bytes.now) ≡ Ok text.items) }
    ensures refusal { IfErr result (IsRefused bytes.now) }
{
    let mut feeder: Feeder<T> = Feeder::new(alloc);
    let mut printer = Printer::new(alloc);
    let mut left = bytes;
    while !left.is_empty() {
        let (piece, behind) = left.split_at(left.len().min(PIECE));
        let packets = feeder.feed(alloc, piece)?;
        printer.write(packets)?;
        left = behind;
    }
    feeder.finish()?;
    Ok(printer.end()?)
}
