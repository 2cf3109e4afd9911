//! The log of a run: what goes over its links, as bytes.
//!
//! [`frame_log`] does the events of a journal once more, on a net of its own, and notes the frame that each of them
//! receives. So the log is a capture of the run, which `capture_text` can print.
//!
//! ```text
//! let log = frame_log::<OwnedTree>(alloc, &plan, &journal)?;
//! ```
//!
//! A contract sees the log as the frames that a journal's events receive, one after another: `frame_log` in
//! `specs/FrameLog.antt`. `specs/Rows.antt` has the first bytes of a small job's log.
#![tactic(auto)]

ghost use Rattle.std.specs.Prelude.{◌≡◌, ◌++◌, false, IfOk, OnOk};
ghost use Rattle.frame_log.specs.FrameLog.{frame_log, received_bytes};
ghost use Rattle.overlay_core.specs.Runs.{IsLegal};
ghost use Rattle.overlay_net.specs.Nets.{AllHome, state_of};

use overlay_event::{Event, Journal};
use overlay_net::{Net, NetError};
use prefix_tree::PrefixTree;
use stat_plan::Plan;
use std::alloc::{AllocError, Global};

/// The bytes of all frames that a run of a plan receives, in the order in which the events of its journal receive them.
///
/// Fails only if memory runs out.
pub fn frame_log<T: PrefixTree>(
    alloc: Global,
    plan: &Plan,
    journal: &Journal,
) -> Result<Vec<u8>, AllocError>
    requires { IsLegal plan.now journal.now }
    ensures { IfOk result (λ log. log.items ≡ frame_log plan.now journal.now) }
{
    let mut net: Net<'_, T> = Net::new(alloc, plan)?;
    let mut log = Vec::new(alloc);
    for number in 0..journal.len() {
        let event = journal.at(number);
        append_received(&net, event, &mut log)?;
        match net.apply(event) {
            Ok(()) => {}
            Err(NetError::NotEnabled) => unreachable!(),
            Err(NetError::OutOfMemory) => return Err(AllocError),
        }
    }
    Ok(log)
}

// Appends the frame that an event receives.
fn append_received<T: PrefixTree>(
    net: &Net<'_, T>,
    event: Event,
    log: &mut Vec<u8>,
) -> Result<(), AllocError>
    requires usable { net.now.failed ≡ false }
    requires home { AllHome net.now }
    ensures { OnOk result (log.new.items
        ≡ log.old.items ++ received_bytes net.now.plan (state_of net.now) event) }
{
    let Event::Recv { node, from } = event else {
        return Ok(());
    };
    match net.first_frame(node, from) {
        Some(frame) => log.extend_from_slice(frame.bytes()),
        None => Ok(()),
    }
}
