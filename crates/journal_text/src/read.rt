//! Reading a journal.

ghost use Rattle.std.specs.Prelude.{◌≡◌, IfOk};
ghost use Rattle.journal_text.specs.Reading.{journal_of, read_view};

use crate::lines::event_of_line;
use overlay_event::Journal;
use stat_plan::Plan;
use std::alloc::{AllocError, Global};
use text_lines::next_line;

/// What was read of a text.
#[derive(Drop)]
pub struct JournalRead {
    /// The events of the lines before the first bad one, in their order.
    pub events: Journal,
    /// The number of the first bad line, from 0; none where each line is good.
    pub bad: Option<u64>,
}

/// Reads a text as a journal of a plan, up to its first bad line. It takes time in proportion to the text, and memory
/// for the events alone.
///
/// # Errors
///
/// `AllocError` where memory runs out.
pub fn read_journal(alloc: Global, plan: &Plan, bytes: &[u8]) -> Result<JournalRead, AllocError>
    ensures { IfOk result (λ read. read_view read ≡ journal_of plan.now bytes.now) }
{
    let mut events = Journal::new(alloc);
    let mut rest = bytes;
    while let Some((line, after)) = next_line(rest) {
        let Some(event) = event_of_line(plan, line) else {
            let bad = Some(events.len());
            return Ok(JournalRead { events, bad });
        };
        events.push(event)?;
        rest = after;
    }
    Ok(JournalRead { events, bad: None })
}
