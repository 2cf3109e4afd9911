//! Writing a journal.

ghost use Rattle.std.specs.Prelude.{◌≡◌, ◌<◌, ◌∷◌, ◌++◌, [], IfOk, OnOk};
ghost use Rattle.overlay_setup.specs.Names.{name_of};
ghost use Rattle.stat_plan.specs.Plans.{nodes};
ghost use Rattle.journal_text.specs.Events.{IsEventOf, AreEventsOf};
ghost use Rattle.journal_text.specs.Text.{journal_text, line_of};

use crate::numbers::write_number;
use overlay_event::{Event, Journal};
use stat_plan::Plan;
use std::alloc::{AllocError, Global};

// Appends a node's name.
fn write_name(plan: &Plan, node: u32, out: &mut Vec<u8>) -> Result<(), AllocError>
    requires { node < nodes plan.now }
    ensures { OnOk result (out.new.items ≡ out.old.items ++ name_of plan.now.names node) }
{
    out.extend_from_slice(plan.name(node).as_bytes())?;
    Ok(())
}

// Appends the line of an event, without a line feed.
fn write_event(plan: &Plan, event: Event, out: &mut Vec<u8>) -> Result<(), AllocError>
    requires { IsEventOf plan.now event }
    ensures { OnOk result (out.new.items ≡ out.old.items ++ line_of plan.now event) }
{
    match event {
        Event::Sample { node, stream, wave } => {
            out.extend_from_slice(b"sample ")?;
            write_name(plan, node, out)?;
            out.push(b' ')?;
            write_number(stream, out)?;
            out.push(b' ')?;
            write_number(wave, out)
        }
        Event::Recv { node, from } => {
            out.extend_from_slice(b"recv ")?;
            write_name(plan, node, out)?;
            out.push(b' ')?;
            write_name(plan, from, out)
        }
        Event::Tick { node } => {
            out.extend_from_slice(b"tick ")?;
            write_name(plan, node, out)
        }
        Event::Lose { node } => {
            out.extend_from_slice(b"lose ")?;
            write_name(plan, node, out)
        }
    }
}

/// The text of a journal of events of a plan, as [`read_journal`](crate::read_journal) reads it.
///
/// # Errors
///
/// `AllocError` where memory runs out.
pub fn write_journal(alloc: Global, plan: &Plan, journal: &Journal) -> Result<Vec<u8>, AllocError>
    requires { AreEventsOf plan.now journal.now }
    ensures { IfOk result (λ text. text.items ≡ journal_text plan.now journal.now) }
{
    let mut text = Vec::new(alloc);
    for i in 0..journal.len() {
        write_event(plan, journal.at(i), &mut text)?;
        text.push(b'\n')?;
    }
    Ok(text)
}
