//! What the loss of a node does to the links.

ghost use Rattle.std.specs.Prelude.{◌≡◌, ◌<◌, length, IfOk};
ghost use Rattle.stat_plan.specs.Plans.{fault, is_related, nodes};
ghost use Rattle.node_inbox.specs.Cuts.{AreCut};
ghost use Rattle.control_cast.specs.CastNets.{notices_below};
ghost use Rattle.stat_plan.specs.Machine.Overlays.{keep_of};

use crate::packet::Packet;
use node_inbox::{Inbox, cut_all};
use stat_plan::Plan;
use std::alloc::{AllocError, Global};

/// Whether one of two nodes is an ancestor of the other.
fn is_related(plan: &Plan, n: u32, m: u32) -> bool
    requires below { n < nodes plan.now }
    requires other { m < nodes plan.now }
    ensures { result ≡ is_related plan.now n m }
{
    plan.is_under(n, m) || plan.is_under(m, n)
}

/// The notices of the loss of a node: one to each ancestor and descendant.
pub fn notices(alloc: Global, plan: &Plan, n: u32) -> Result<Vec<(u32, Packet)>, AllocError>
    requires { n < nodes plan.now }
    ensures { IfOk result (λ sends. sends.items ≡ notices_below plan.now n (nodes plan.now)) }
{
    let mut sends = Vec::new(alloc);
    for b in 0..plan.nodes() {
        if is_related(plan, n, b) {
            sends.push((b, Packet::Down))?;
        }
    }
    Ok(sends)
}

/// How many of the first packets on each link out of a node stay when it is lost.
fn kept(plan: &Plan, n: u32) -> u32
    ensures { result ≡ keep_of (fault plan.now n) }
{
    match plan.fault(n) {
        Some(fault) => fault.keep,
        None => 0,
    }
}

/// What the loss of a node does to the links: of what it sent the first packets stay on the way, and nothing stays on
/// the way to it.
pub fn cut_links(plan: &Plan, n: u32, inboxes: &mut [Inbox<Packet>])
    ensures { AreCut n (keep_of (fault plan.now n)) (length inboxes.old) inboxes.old inboxes.new }
{
    cut_all(n, kept(plan, n), inboxes);
}
