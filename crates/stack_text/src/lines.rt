//! The lines of a printed stack.

ghost use Rattle.std.specs.Prelude.{◌≡◌, ◌≤◌, option_map, is_some, length};
ghost use Rattle.stack_text.specs.Texts.{first_where};
ghost use Rattle.stack_text.specs.Lines.{number_before, is_column, line_number, source_parted, source_at, source_line, thread_line, process_at, process_line, call_line, other_line, line_of, read_line};
ghost use Rattle.stack_text.specs.LineViews.{bare_view, line_view};

use crate::bare::{Bare, bare_of};
use crate::binaries::call_tail;
use crate::texts::{behind, number_of};
use text_lines::next_word;

/// What a line says.
#[derive(Debug, PartialEq, Eq, Clone, Copy)]
pub enum Line<'t> {
    /// It has no word.
    Nothing,
    /// The process whose stacks follow.
    Process(u32),
    /// The thread whose calls follow.
    Thread(u32),
    /// A call of the thread.
    Call {
        /// How many calls of the thread are above it. The innermost is number 0.
        number: u32,
        /// The function, or nothing.
        name: &'t [u8],
        /// The executable or the shared library that the function is in, or nothing.
        binary: &'t [u8],
        /// Whether that file was removed or replaced while it ran.
        is_deleted: bool,
    },
    /// Where the call above stands in its file: hexadecimal digits.
    Place(&'t [u8]),
    /// Where the call above stands in the source.
    Source {
        /// The source file.
        file: &'t [u8],
        /// The line there, or 0.
        number: u32,
    },
    /// It is no line of a printed stack.
    Odd,
}

// The number that a text begins with, if just this stands behind it.
fn number_before(end: &[u8], text: &[u8]) -> Option<u32>
    ensures { result ≡ number_before end.now text.now }
{
    let (number, rest) = number_of(text)?;
    if rest == end { Some(number) } else { None }
}

// Whether a text is nothing, or a colon and the number of a column.
fn is_column(text: &[u8]) -> bool
    ensures { result ≡ is_column text.now }
{
    if text.is_empty() {
        return true;
    }
    match behind(text, b":") {
        Some(rest) => number_before(b"", rest).is_some(),
        None => false,
    }
}

// The number of a line of a source file: what is left of the text is a colon, this number, and perhaps a column.
fn line_number(text: &[u8]) -> Option<u32>
    ensures { result ≡ line_number text.now }
{
    let (number, rest) = number_of(behind(text, b":")?)?;
    if is_column(rest) { Some(number) } else { None }
}

// How many bytes stand before the number of a line and its colon; all where there is none.
fn number_start(text: &[u8]) -> usize
    ensures value { result ≡ first_where (λ t. is_some (line_number t)) text.now }
    ensures within { result ≤ length text.now }
{
    for i in 0..text.len() {
        let (_, rest) = text.split_at(i);
        if line_number(rest).is_some() {
            return i;
        }
    }
    text.len()
}

// A source file, and the number of a line there.
fn source_parted(text: &[u8], start: usize) -> Line<'_>
    requires { start ≤ length text.now }
    ensures { line_view result ≡ source_parted text.now start }
{
    let (file, rest) = text.split_at(start);
    Line::Source {
        file,
        number: line_number(rest).unwrap_or(0),
    }
}

// What stands behind four blanks: a source file, which begins with no bracket, blank or colon, and perhaps a number.
fn source_at(text: &[u8]) -> Option<Line<'_>>
    ensures { option_map line_view result ≡ source_at text.now }
{
    let (b, _) = text.split_first()?;
    if *b == b'[' || *b == b' ' || *b == b'\t' || *b == b':' {
        return None;
    }
    Some(source_parted(text, number_start(text)))
}

// A line that names a source file.
fn source_line(line: &[u8]) -> Option<Line<'_>>
    ensures { option_map line_view result ≡ source_line line.now }
{
    source_at(behind(line, b"    ")?)
}

// A line that begins a thread.
fn thread_line(line: &[u8]) -> Option<Line<'_>>
    ensures { option_map line_view result ≡ thread_line line.now }
{
    let number = number_before(b":", behind(line, b"TID ")?)?;
    Some(Line::Thread(number))
}

// The number of a process, behind `PID `.
fn process_at(text: &[u8]) -> Option<u32>
    ensures { result ≡ process_at text.now }
{
    if let Some(number) = number_before(b" - process", text) {
        return Some(number);
    }
    number_before(b" - core", text)
}

// A line that begins a process.
fn process_line(line: &[u8]) -> Option<Line<'_>>
    ensures { option_map line_view result ≡ process_line line.now }
{
    let number = process_at(behind(line, b"PID ")?)?;
    Some(Line::Process(number))
}

// A line that has no address, and a word.
fn other_line(line: &[u8]) -> Option<Line<'_>>
    ensures { option_map line_view result ≡ other_line line.now }
{
    if let Some(source) = source_line(line) {
        return Some(source);
    }
    if let Some(thread) = thread_line(line) {
        return Some(thread);
    }
    process_line(line)
}

// The number of a call, and what stands behind its address.
fn call_line<'t>(prefix: &[u8], tail: &'t [u8]) -> Option<Line<'t>>
    ensures { option_map line_view result ≡ call_line prefix.now tail.now }
{
    let (_, text) = prefix.split_first()?;
    let (number, _) = number_of(text)?;
    call_tail(number, tail)
}

// What a line says that is parted at its address.
fn line_of(line: Bare<'_>) -> Line<'_>
    ensures { line_view result ≡ line_of (bare_view line.entry) }
{
    match line {
        Bare::Call { prefix, tail } => call_line(prefix, tail).unwrap_or(Line::Odd),
        Bare::Place(offset) => Line::Place(offset),
        Bare::Other(line) => {
            if next_word(line).is_none() {
                return Line::Nothing;
            }
            other_line(line).unwrap_or(Line::Odd)
        }
    }
}

/// What a line says. The line has no line feed at its end, and no carriage return.
#[tactic(auto, unfolding(crate::specs::Lines::read_line))]
pub fn read_line(line: &[u8]) -> Line<'_>
    ensures { line_view result ≡ read_line line.now }
{
    line_of(bare_of(line))
}
