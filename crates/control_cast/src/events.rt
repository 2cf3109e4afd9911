//! The events that may come next: how many each node has, and which the `i`-th is.

ghost use Rattle.std.specs.Prelude.{◌≡◌, ◌<◌, ◌≤◌, true, length, map, slice_get};
ghost use Rattle.stat_plan.specs.Plans.{AreNodes, nodes};
ghost use Rattle.node_inbox.specs.Inboxes.{senders_of};
ghost use Rattle.control_cast.specs.CastEvents.{AreCounted, AreCountedBut, active_events, events_at, may_issue, own_events};
ghost use Rattle.control_cast.specs.CastStates.{IsNetOf, nodes_state};
ghost use Rattle.control_cast.specs.declared.event.CastEvent.TheVariants.{Recv};

use crate::event::CastEvent;
use crate::node::CastNode;
use crate::nodes::CastNodes;
use crate::packet::Packet;
use count_tree::CountTree;
use node_inbox::Inbox;
use stat_plan::Plan;

/// Whether a node that isn't to be lost issues a command.
fn may_issue(plan: &Plan, commands: u32, node: &CastNode) -> bool
    ensures { result ≡ may_issue plan.now commands node.now }
{
    node.number() == plan.front() && node.seen() < commands
}

/// How many events of a node that isn't to be lost may come next.
fn active_count(plan: &Plan, commands: u32, node: &CastNode, inbox: &Inbox<Packet>) -> u32
    requires { length inbox.now.waiting ≤ 512 }
    ensures { result ≡ length (active_events plan.now commands node.now inbox.now.waiting) }
{
    let issues = may_issue(plan, commands, node);
    let senders = inbox.sender_count() as u32;
    if issues { senders + 1 } else { senders }
}

/// The `i`-th of what a node may receive.
fn nth_receipt(node: &CastNode, inbox: &Inbox<Packet>, i: u64) -> Option<CastEvent>
    ensures { result ≡ slice_get (map (λ m. Recv node.now.number m) (senders_of inbox.now.waiting)) i }
{
    match inbox.sender(i as usize) {
        Some(from) => Some(CastEvent::Recv {
            node: node.number(),
            from,
        }),
        None => None,
    }
}

/// The `i`-th of the events of a node that isn't to be lost.
fn nth_active(
    plan: &Plan,
    commands: u32,
    node: &CastNode,
    inbox: &Inbox<Packet>,
    i: u64,
) -> Option<CastEvent>
    ensures { result ≡ slice_get (active_events plan.now commands node.now inbox.now.waiting) i }
{
    if !may_issue(plan, commands, node) {
        return nth_receipt(node, inbox, i);
    }
    if i == 0 {
        return Some(CastEvent::Issue);
    }
    nth_receipt(node, inbox, i - 1)
}

/// How many events of a living node may come next.
fn own_count(plan: &Plan, commands: u32, node: &CastNode, inbox: &Inbox<Packet>) -> u32
    requires { length inbox.now.waiting ≤ 512 }
    ensures { result ≡ length (own_events plan.now commands true node.now inbox.now.waiting) }
{
    if node.is_doomed(plan) {
        return 1;
    }
    active_count(plan, commands, node, inbox)
}

/// The `i`-th of the events of a living node.
fn own_event(
    plan: &Plan,
    commands: u32,
    node: &CastNode,
    inbox: &Inbox<Packet>,
    i: u64,
) -> Option<CastEvent>
    ensures { result ≡ slice_get (own_events plan.now commands true node.now inbox.now.waiting) i }
{
    if !node.is_doomed(plan) {
        return nth_active(plan, commands, node, inbox, i);
    }
    if i == 0 {
        return Some(CastEvent::Lose {
            node: node.number(),
        });
    }
    None
}

impl CastNodes {
    /// How many events of a node may come next.
    fn event_count(&self, plan: &Plan, commands: u32, n: u32) -> u32
        requires net { IsNetOf plan.now commands self.now }
        requires below { n < nodes plan.now }
        ensures { result ≡ length (events_at plan.now commands (nodes_state plan.now self.now) n) }
    {
        plan.invariant();
        let inbox = &self.inboxes[n as usize];
        inbox.invariant();
        if !self.is_up(n) {
            return 0;
        }
        own_count(plan, commands, &self.members[n as usize], inbox)
    }

    /// The `i`-th of the events of a node that may come next, from 0.
    pub fn node_event(&self, plan: &Plan, commands: u32, n: u32, i: u64) -> Option<CastEvent>
        requires net { IsNetOf plan.now commands self.now }
        requires below { n < nodes plan.now }
        ensures { result ≡ slice_get (events_at plan.now commands (nodes_state plan.now self.now) n) i }
    {
        plan.invariant();
        let inbox = &self.inboxes[n as usize];
        inbox.invariant();
        if !self.is_up(n) {
            return None;
        }
        own_event(plan, commands, &self.members[n as usize], inbox, i)
    }

    /// Counts the events of these nodes anew.
    pub fn count(&self, plan: &Plan, commands: u32, numbers: &[u32], counts: &mut CountTree)
        requires net { IsNetOf plan.now commands self.now }
        requires below { AreNodes plan.now numbers.now }
        requires counted { AreCountedBut plan.now commands (nodes_state plan.now self.now) numbers.now counts.old }
        ensures { AreCounted plan.now commands (nodes_state plan.now self.now) counts.new }
    {
        for number in numbers {
            let n = *number;
            counts.set(n, self.event_count(plan, commands, n));
        }
    }
}
