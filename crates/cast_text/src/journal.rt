//! The text of a journal.

ghost use Rattle.std.specs.Prelude.{◌≡◌, ◌<◌, ◌++◌, IfOk, OnOk};
ghost use Rattle.overlay_setup.specs.Names.{name_of};
ghost use Rattle.stat_plan.specs.Plans.{front, nodes};
ghost use Rattle.control_cast.specs.Casts.{AreEventsOf, IsEventOf};
ghost use Rattle.cast_text.specs.CastText.{event_line, journal_text};

use control_cast::{CastEvent, CastJournal};
use stat_plan::Plan;
use std::alloc::{AllocError, Global};

/// Appends a node's name.
fn write_name(plan: &Plan, node: u32, out: &mut Vec<u8>) -> Result<(), AllocError>
    requires { node < nodes plan.now }
    ensures { OnOk result (out.new.items ≡ out.old.items ++ name_of plan.now.names node) }
{
    out.extend_from_slice(plan.name(node).as_bytes())?;
    Ok(())
}

/// Appends the name of the front end.
fn write_front(plan: &Plan, out: &mut Vec<u8>) -> Result<(), AllocError>
    ensures { OnOk result (out.new.items ≡ out.old.items ++ name_of plan.now.names (front plan.now)) }
{
    plan.invariant();
    write_name(plan, plan.front(), out)
}

/// Appends the line of an event.
fn write_event(plan: &Plan, event: CastEvent, out: &mut Vec<u8>) -> Result<(), AllocError>
    requires { IsEventOf plan.now event }
    ensures { OnOk result (out.new.items ≡ out.old.items ++ event_line plan.now event) }
{
    match event {
        CastEvent::Issue => {
            out.extend_from_slice(b"issue ")?;
            write_front(plan, out)?;
        }
        CastEvent::Recv { node, from } => {
            out.extend_from_slice(b"recv ")?;
            write_name(plan, node, out)?;
            out.push(b' ')?;
            write_name(plan, from, out)?;
        }
        CastEvent::Lose { node } => {
            out.extend_from_slice(b"lose ")?;
            write_name(plan, node, out)?;
        }
    }
    out.push(b'\n')?;
    Ok(())
}

/// The text of a journal: a line for each event, in order, `issue NODE`, `recv NODE FROM` or `lose NODE`, with the
/// nodes' names.
///
/// # Errors
///
/// Out of memory.
pub fn journal_text(
    alloc: Global,
    plan: &Plan,
    journal: &CastJournal,
) -> Result<Vec<u8>, AllocError>
    requires { AreEventsOf plan.now journal.now }
    ensures { IfOk result (λ text. text.items ≡ journal_text plan.now journal.now) }
{
    let mut out = Vec::new(alloc);
    for i in 0..journal.len() {
        write_event(plan, journal.at(i), &mut out)?;
    }
    Ok(out)
}
