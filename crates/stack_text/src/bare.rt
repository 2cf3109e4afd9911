//! Lines without their addresses.

ghost use Rattle.std.specs.Prelude.{◌≡◌, ◌≤◌, ◌+◌, ◌++◌, ℕ, List, false, map, option_map, drop, length};
ghost use Rattle.std.specs.Prelude.{OnOk, OnErr, vec_len, vec_capacity};
ghost use Rattle.stack_text.specs.Texts.{before_rest, has_feed, hex_len};
ghost use Rattle.stack_text.specs.Bare.{address_of, bare_call, offset_alone, bare_place, bare_of, bare_text, bare};
ghost use Rattle.stack_text.specs.LineViews.{bare_view};
ghost use Rattle.stack_text.specs.Lines.{read_line};
ghost use Rattle.stack_text.specs.Processes.{process_of};
ghost use Rattle.stack_text.specs.Threads.{thread_of};

use crate::texts::{behind, behind_digits, behind_hex, hex_len};
use std::alloc::AllocError;
use text_lines::after_blanks;

// A line, parted at its address.
#[derive(Clone, Copy)]
pub enum Bare<'t> {
    // A call.
    Call {
        // What stands before the digits of its address. It ends in `0x`.
        prefix: &'t [u8],
        // What stands behind them.
        tail: &'t [u8],
    },
    // Where a call stands in its file: hexadecimal digits.
    Place(&'t [u8]),
    // A line that has no address.
    Other(&'t [u8]),
}

// What is left of a call's line behind `#`, the call's number, blanks and `0x`.
fn address_of(line: &[u8]) -> Option<&[u8]>
    ensures { option_map (λ r. r.now) result ≡ address_of line.now }
{
    behind(after_blanks(behind_digits(behind(line, b"#")?)?), b"0x")
}

// What stands in a text before this rest of it.
fn before_rest<'t>(text: &'t [u8], rest: &[u8]) -> &'t [u8]
    ensures { result.now ≡ before_rest text.now rest.now }
{
    let (prefix, _) = text.split_at(text.len().saturating_sub(rest.len()));
    prefix
}

// A call's line.
fn bare_call(line: &[u8]) -> Option<Bare<'_>>
    ensures { option_map bare_view result ≡ bare_call line.now }
{
    let address = address_of(line)?;
    let tail = behind_hex(address)?;
    Some(Bare::Call {
        prefix: before_rest(line, address),
        tail,
    })
}

// An offset, which is all that is left of a line.
fn offset_alone(digits: &[u8]) -> Option<Bare<'_>>
    ensures { option_map bare_view result ≡ offset_alone digits.now }
{
    if hex_len(digits) == digits.len() && !digits.is_empty() {
        Some(Bare::Place(digits))
    } else {
        None
    }
}

// What is left behind the hexadecimal digits that a text begins with.
fn after_hex(text: &[u8]) -> &[u8]
    ensures { result.now ≡ drop (hex_len text.now) text.now }
{
    let (_, rest) = text.split_at(hex_len(text));
    rest
}

// A place's line.
fn bare_place(line: &[u8]) -> Option<Bare<'_>>
    ensures { option_map bare_view result ≡ bare_place line.now }
{
    let address = behind(after_hex(behind(line, b"    [")?), b"]@0x")?;
    offset_alone(behind(behind_hex(address)?, b"+0x")?)
}

// A line, parted at its address.
#[tactic(auto, unfolding(crate::specs::Bare::bare_of))]
pub fn bare_of(line: &[u8]) -> Bare<'_>
    ensures { bare_view result ≡ bare_of line.now }
{
    if let Some(bare) = bare_call(line) {
        return bare;
    }
    bare_place(line).unwrap_or(Bare::Other(line))
}

// Appends bytes for which there is room.
fn append(out: &mut Vec<u8>, bytes: &[u8])
    requires { vec_len out.old + length bytes.now ≤ vec_capacity out.old }
    ensures items { out.new.items ≡ out.old.items ++ bytes.now }
    ensures length { vec_len out.new ≡ vec_len out.old + length bytes.now }
    ensures capacity { vec_capacity out.old ≤ vec_capacity out.new }
{
    let Ok(()) = out.extend_from_slice(bytes) else {
        unreachable!();
    };
}

// Appends a line with 0 for its address, for which there is room.
fn append_bare(out: &mut Vec<u8>, line: Bare<'_>)
    requires { vec_len out.old + length (bare_text (bare_view line)) ≤ vec_capacity out.old }
    ensures { out.new.items ≡ out.old.items ++ bare_text (bare_view line.entry) }
{
    match line {
        Bare::Call { prefix, tail } => {
            append(out, prefix);
            append(out, b"0");
            append(out, tail);
        }
        Bare::Place(offset) => {
            append(out, b"    []@0x0+0x");
            append(out, offset);
        }
        Bare::Other(line) => append(out, line),
    }
}

/// Appends a line with `0x0` for its address, and of the place of a call its offset alone, so that the lines of two
/// processes are the same where they say the same. The line has no line feed at its end, and no carriage return. Out of
/// memory, nothing is appended.
pub fn push_bare(out: &mut Vec<u8>, line: &[u8]) -> Result<(), AllocError>
    ensures ok { OnOk result (out.new.items ≡ out.old.items ++ bare line.now) }
    ensures err { OnErr result (out.new.items ≡ out.old.items) }
{
    out.reserve(line.len())?;
    append_bare(out, bare_of(line));
    Ok(())
}

/// Laws of bare lines: a bare line says what its line says, and so do the bare lines of a thread and of a process. The
/// bare line of a bare line is this line, and it has a line feed only if the line has one.
pub fn addresses_say_nothing()
    ensures line { (line : List ℕ) → read_line (bare line) ≡ read_line line }
    ensures thread { (ls : List (List ℕ)) → thread_of (map bare ls) ≡ thread_of ls }
    ensures process { (pid : ℕ) (ls : List (List ℕ)) → process_of pid (map bare ls) ≡ process_of pid ls }
    ensures idempotent { (line : List ℕ) → bare (bare line) ≡ bare line }
    ensures line_feeds { (line : List ℕ) → has_feed line ≡ false → has_feed (bare line) ≡ false }
{}
