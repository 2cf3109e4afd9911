//! The name of a frame: the function's, or where its call stands in its file.

ghost use Rattle.std.specs.Prelude.{◌≡◌, ◌++◌, IfOk, OnOk};
ghost use Rattle.frame_name.specs.CallViews.{call_view};
ghost use Rattle.frame_name.specs.Names.{has_name, function_of, library_mark, offset_text, place_text, name_text, shown_name};

use crate::Call;
use crate::binaries::{file_name, is_mpi, is_plugin, push_binary_name};
use crate::plain_text::{UNKNOWN, plain};
use crate::short_text::fitted;
use std::alloc::{AllocError, Global};
use symbol_name::symbol_of;

// Whether a name is known.
fn has_name(name: &[u8]) -> bool
    ensures { result ≡ has_name name.now }
{
    !(name.is_empty() || name == UNKNOWN)
}

/// The function that a call is of; empty where its name isn't known.
#[tactic(auto, unfolding(crate::specs::Names::function_of))]
pub fn function_of(alloc: Global, call: &Call) -> Result<Vec<u8>, AllocError>
    ensures { IfOk result (λ function. function.items ≡ function_of (call_view call.now)) }
{
    if !has_name(&call.name) {
        return Ok(Vec::new(alloc));
    }
    symbol_of(alloc, &call.name, is_mpi(&call.binary))
}

// Appends what stands behind the name of a function of a binary.
fn push_library_mark(out: &mut Vec<u8>, binary: &[u8]) -> Result<(), AllocError>
    ensures { OnOk result (out.new.items ≡ out.old.items ++ library_mark binary.now) }
{
    if is_plugin(binary) {
        out.extend_from_slice(b" (")?;
        out.extend_from_slice(file_name(binary))?;
        out.extend_from_slice(b")")?;
    }
    Ok(())
}

// Appends where a call stands in its file.
fn push_offset(out: &mut Vec<u8>, is_innermost: bool, offset: &[u8]) -> Result<(), AllocError>
    ensures { OnOk result (out.new.items ≡ out.old.items ++ offset_text is_innermost offset.now) }
{
    if is_innermost || offset.is_empty() {
        return out.extend_from_slice(b"?");
    }
    out.extend_from_slice(b"0x")?;
    out.extend_from_slice(offset)
}

// What is shown of a function with no name.
fn place_text(alloc: Global, is_innermost: bool, call: &Call) -> Result<Vec<u8>, AllocError>
    ensures { IfOk result (λ text. text.items ≡ place_text is_innermost (call_view call.now)) }
{
    if call.binary.is_empty() {
        return Vec::from_slice(alloc, UNKNOWN);
    }
    let mut text = Vec::new(alloc);
    push_binary_name(&mut text, &call.binary)?;
    text.extend_from_slice(b"+")?;
    push_offset(&mut text, is_innermost, &call.offset)?;
    Ok(text)
}

// What is shown of a call of a function.
fn name_text(
    alloc: Global,
    function: &[u8],
    is_innermost: bool,
    call: &Call,
) -> Result<Vec<u8>, AllocError>
    ensures { IfOk result (λ text. text.items ≡ name_text function.now is_innermost (call_view call.now)) }
{
    if !has_name(&call.name) {
        return place_text(alloc, is_innermost, call);
    }
    let mut text = Vec::from_slice(alloc, function)?;
    push_library_mark(&mut text, &call.binary)?;
    Ok(text)
}

/// The name of the frame of a call of a function.
pub fn name_of(
    alloc: Global,
    function: &[u8],
    is_innermost: bool,
    call: &Call,
) -> Result<Vec<u8>, AllocError>
    ensures { IfOk result (λ name. name.items ≡ shown_name function.now is_innermost (call_view call.now)) }
{
    let text = name_text(alloc, function, is_innermost, call)?;
    let name = plain(alloc, &text)?;
    fitted(alloc, name)
}
