//! The calls that the lines of a thread print.

ghost use Rattle.std.specs.Prelude.{◌≡◌, ℕ, List, false, map, IfOk, OnOk};
ghost use Rattle.std.specs.List.{list_any};
ghost use Rattle.text_lines.specs.Lines.{lines, pieces};
ghost use Rattle.stack_text.specs.Bare.{bare};
ghost use Rattle.stack_text.specs.LineViews.{line_view};
ghost use Rattle.stack_text.specs.StackViews.{thread_view};
ghost use Rattle.stack_text.specs.Texts.{has_feed, joined};
ghost use Rattle.stack_text.specs.Threads.{no_call, with_call, with_offset, with_source, with_line, thread_of};

use crate::lines::{Line, read_line};
use crate::texts::next_piece;
use frame_name::Call;
use std::alloc::{AllocError, Global};

/// What the lines of a thread print.
#[derive(Drop)]
pub struct Thread {
    /// The calls, innermost first.
    pub calls: Vec<Call>,
    /// Whether a line is odd: it is none of a thread, it has another number than the next call, or it says of a call
    /// what was said before or has no call.
    pub is_odd: bool,
}

impl Thread {
    // No line.
    pub(crate) fn new(alloc: Global) -> Thread
        ensures { thread_view result ≡ no_call }
    {
        Thread {
            calls: Vec::new(alloc),
            is_odd: false,
        }
    }

    // One call more, whose number is how many there were.
    fn push_call(
        &mut self,
        number: u32,
        name: &[u8],
        binary: &[u8],
        is_deleted: bool,
    ) -> Result<(), AllocError>
        ensures { OnOk result (
            thread_view self.new ≡ with_call (thread_view self.old) number name.now binary.now is_deleted
            ) }
    {
        let alloc = *self.calls.allocator();
        if number as usize != self.calls.len() {
            self.is_odd = true;
        }
        self.calls.push(Call {
            name: Vec::from_slice(alloc, name)?,
            binary: Vec::from_slice(alloc, binary)?,
            is_deleted,
            offset: Vec::new(alloc),
            file: Vec::new(alloc),
            line: 0,
        })?;
        Ok(())
    }

    // The offset of the last call.
    fn set_offset(&mut self, offset: &[u8]) -> Result<(), AllocError>
        ensures { OnOk result (thread_view self.new ≡ with_offset (thread_view self.old) offset.now) }
    {
        let alloc = *self.calls.allocator();
        let Some(last) = self.calls.pop() else {
            self.is_odd = true;
            return Ok(());
        };
        if last.offset.is_empty() {
            let offset = Vec::from_slice(alloc, offset)?;
            self.calls.push(Call { offset, ..last })?;
        } else {
            self.calls.push(last)?;
            self.is_odd = true;
        }
        Ok(())
    }

    // The source file of the last call, and the line there.
    fn set_source(&mut self, file: &[u8], line: u32) -> Result<(), AllocError>
        ensures { OnOk result (thread_view self.new ≡ with_source (thread_view self.old) file.now line) }
    {
        let alloc = *self.calls.allocator();
        let Some(last) = self.calls.pop() else {
            self.is_odd = true;
            return Ok(());
        };
        if last.file.is_empty() {
            let file = Vec::from_slice(alloc, file)?;
            self.calls.push(Call { file, line, ..last })?;
        } else {
            self.calls.push(last)?;
            self.is_odd = true;
        }
        Ok(())
    }

    // One line more.
    pub(crate) fn take(&mut self, line: Line<'_>) -> Result<(), AllocError>
        ensures { OnOk result (thread_view self.new ≡ with_line (thread_view self.old) (line_view line.entry)) }
    {
        match line {
            Line::Nothing => Ok(()),
            Line::Call {
                number,
                name,
                binary,
                is_deleted,
            } => self.push_call(number, name, binary, is_deleted),
            Line::Place(offset) => self.set_offset(offset),
            Line::Source { file, number } => self.set_source(file, number),
            Line::Process(_) | Line::Thread(_) | Line::Odd => {
                self.is_odd = true;
                Ok(())
            }
        }
    }
}

/// What the lines of a thread print, those below the line that begins it, from a text of these lines with one line feed
/// behind each. The text is cut at its line feeds alone: a carriage return before one belongs to the line.
#[tactic(auto, unfolding(crate::specs::Threads::thread_of))]
pub fn read_thread(alloc: Global, text: &[u8]) -> Result<Thread, AllocError>
    ensures { IfOk result (λ thread. thread_view thread ≡ thread_of (pieces text.now)) }
{
    let mut thread = Thread::new(alloc);
    let mut rest = text;
    while let Some((line, after)) = next_piece(rest) {
        thread.take(read_line(line))?;
        rest = after;
    }
    Ok(thread)
}

/// Laws of joined lines: lines without line feeds are read back from the text that joins them with one line feed behind
/// each, and the lines of any text are such lines. So the joined bare lines of a thread print what its lines print, and
/// can stand for it as a key of a table.
pub fn joined_lines_are_read_back()
    ensures pieces { (ls : List (List ℕ)) → list_any has_feed ls ≡ false → pieces (joined ls) ≡ ls }
    ensures line_feeds { (text : List ℕ) → list_any has_feed (lines text) ≡ false }
    ensures thread { (ls : List (List ℕ)) → list_any has_feed ls ≡ false →
        thread_of (pieces (joined (map bare ls))) ≡ thread_of ls }
{}
