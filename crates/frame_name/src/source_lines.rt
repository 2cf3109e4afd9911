//! What is shown of the source file and the line that a call stands at: ` (FILE)@LINE`.

ghost use Rattle.std.specs.Prelude.{◌≡◌, ◌++◌, map, IfOk, OnOk};
ghost use Rattle.std.specs.Str.Lossy.{utf8_lossy};
ghost use Rattle.frame_name.specs.CallViews.{call_view};
ghost use Rattle.frame_name.specs.SourceLines.{file_byte, file_text, has_line, line_of};

use crate::Call;
use crate::plain_text::is_control;
use crate::short_text::within;
use crate::texts::base_name;
use std::alloc::{AllocError, Global};

// The name of a source file has at most so many bytes; of a longer one so many of either end are left.
const FILE_BYTES: usize = 255;

const FILE_ENDS: usize = 90;

// A line has at most nine digits.
const LAST_LINE: u32 = 999_999_999;

fn file_byte(b: u8) -> u8
    ensures { result ≡ file_byte b }
{
    if is_control(b) || b == b' ' {
        return b'_';
    }
    if b == b';' { b':' } else { b }
}

// The bytes of a source file's name.
fn file_bytes(alloc: Global, name: &[u8]) -> Result<Vec<u8>, AllocError>
    ensures { IfOk result (λ bytes. bytes.items ≡ map file_byte (utf8_lossy name.now)) }
{
    let name = String::from_utf8_lossy(alloc, name)?;
    name.as_bytes().iter().map(|b| file_byte(*b)).collect(alloc)
}

// The name of a source file.
#[tactic(auto, unfolding(crate::specs::SourceLines::file_text))]
fn file_text(alloc: Global, file: &[u8]) -> Result<Vec<u8>, AllocError>
    ensures { IfOk result (λ text. text.items ≡ file_text file.now) }
{
    let name = file_bytes(alloc, base_name(file))?;
    within(alloc, FILE_BYTES, FILE_ENDS, name)
}

// Whether the file and the line are known.
fn has_line(call: &Call) -> bool
    ensures { result ≡ has_line (call_view call.now) }
{
    !base_name(&call.file).is_empty() && call.line > 0 && call.line <= LAST_LINE
}

/// Appends what is shown of the source file and the line of a call: nothing where they aren't known.
#[tactic(auto, unfolding(crate::specs::SourceLines::line_of))]
pub fn push_line(alloc: Global, out: &mut Vec<u8>, call: &Call) -> Result<(), AllocError>
    ensures { OnOk result (out.new.items ≡ out.old.items ++ line_of (call_view call.now)) }
{
    if !has_line(call) {
        return Ok(());
    }
    let file = file_text(alloc, &call.file)?;
    out.extend_from_slice(b" (")?;
    out.extend_from_slice(&file)?;
    out.extend_from_slice(b")@")?;
    let mut digits = itoa::Buffer::new();
    out.extend_from_slice(digits.format(call.line).as_bytes())
}
