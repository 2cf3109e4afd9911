//! The threads that the lines of a process print.

ghost use Rattle.std.specs.Prelude.{◌≡◌, ◌<◌, IfOk, IfSome, length};
ghost use Rattle.text_lines.specs.Lines.{lines};
ghost use Rattle.stack_text.specs.LineViews.{line_view};
ghost use Rattle.stack_text.specs.Processes.{thread_number, parted, AreThreadsFrom, is_head_of, has_odd_head, process_of};
ghost use Rattle.stack_text.specs.StackViews.{thread_view, process_view};
ghost use Rattle.stack_text.specs.Threads.{thread_of};

use crate::lines::{Line, read_line};
use crate::threads::Thread;
use std::alloc::{AllocError, Global};
use text_lines::next_line;

/// What the lines of a process print.
#[derive(Drop)]
pub struct Process {
    /// The threads with their numbers, in the order of the lines.
    pub threads: Vec<(u32, Thread)>,
    /// Whether a line above the first thread is odd: it has a word, and does not name this process.
    pub is_odd: bool,
}

// The number of the thread that a line begins.
fn thread_number(line: Line<'_>) -> Option<u32>
    ensures { result ≡ thread_number (line_view line.entry) }
{
    match line {
        Line::Thread(number) => Some(number),
        _ => None,
    }
}

// Whether a line may stand above the first thread of a process: it has no word, or names this process.
fn is_head_of(pid: u32, line: Line<'_>) -> bool
    ensures { result ≡ is_head_of pid (line_view line.entry) }
{
    match line {
        Line::Nothing => true,
        Line::Process(number) => number == pid,
        _ => false,
    }
}

// Whether a line above the first thread of a text is odd, and the number of that thread and the text below its line.
fn read_head(pid: u32, text: &[u8]) -> (bool, Option<(u32, &[u8])>)
    ensures head { result.0 ≡ has_odd_head pid (parted (lines text.now)).head }
    ensures threads { AreThreadsFrom result.1 (parted (lines text.now)).threads }
    ensures shorter { IfSome result.1 (λ next. length next.1.now < length text.now) }
{
    let mut is_odd = false;
    let mut rest = text;
    while let Some((line, after)) = next_line(rest) {
        let line = read_line(line);
        if let Some(number) = thread_number(line) {
            return (is_odd, Some((number, after)));
        }
        is_odd = is_odd || !is_head_of(pid, line);
        rest = after;
    }
    (is_odd, None)
}

// The thread whose lines a text begins with, and the number of the next one and the text below its line.
fn read_below(alloc: Global, text: &[u8]) -> Result<(Thread, Option<(u32, &[u8])>), AllocError>
    ensures thread { IfOk result (λ r. thread_view r.0 ≡ thread_of (parted (lines text.now)).head) }
    ensures threads { IfOk result (λ r. AreThreadsFrom r.1 (parted (lines text.now)).threads) }
    ensures shorter { IfOk result (λ r. IfSome r.1 (λ next. length next.1.now < length text.now)) }
{
    let mut thread = Thread::new(alloc);
    let mut rest = text;
    while let Some((line, after)) = next_line(rest) {
        let line = read_line(line);
        if let Some(number) = thread_number(line) {
            return Ok((thread, Some((number, after))));
        }
        thread.take(line)?;
        rest = after;
    }
    Ok((thread, None))
}

/// What the lines of the process of this number print.
pub fn read_process(alloc: Global, pid: u32, text: &[u8]) -> Result<Process, AllocError>
    ensures { IfOk result (λ process. process_view process ≡ process_of pid (lines text.now)) }
{
    let (is_odd, mut next) = read_head(pid, text);
    let mut threads = Vec::new(alloc);
    while let Some((number, below)) = next {
        let (thread, after) = read_below(alloc, below)?;
        threads.push((number, thread))?;
        next = after;
    }
    Ok(Process { threads, is_odd })
}
