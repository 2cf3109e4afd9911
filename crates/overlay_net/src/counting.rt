//! How many events of each node may come next.

ghost use Rattle.std.specs.Prelude.{◌≡◌, ◌≤◌, ◌<◌, length};
ghost use Rattle.std.specs.List.{flat_map};
ghost use Rattle.stat_plan.specs.Plans.{AreNodes, nodes};
ghost use Rattle.overlay_node.specs.NodeViews.{IsNodeOf};
ghost use Rattle.node_inbox.specs.Inboxes.{senders_of};
ghost use Rattle.overlay_net.specs.Nets.{sample_of};
ghost use Rattle.overlay_net.specs.Places.{events_out};
ghost use Rattle.overlay_net.specs.Events.{free_senders};
ghost use Rattle.overlay_net.specs.States.{AreClaimsCounted, AreClaimsCountedBut, AreLossesCounted, ArePartsOf, claims_of};
ghost use Rattle.overlay_net.specs.Sends.{changed, if_lost};

use crate::events::{is_doomed, next_wave};
use crate::nodes::NetNodes;
use crate::place::Place;
use count_tree::CountTree;
use node_inbox::Inbox;
use overlay_event::Event;
use overlay_node::Node;
use packet_frame::Frame;
use prefix_tree::PrefixTree;
use stat_plan::Plan;

/// How many samples of a node may come next.
fn sample_count<T: PrefixTree>(plan: &Plan, node: &Node<T>) -> u32
    requires { IsNodeOf plan.now node.now }
    ensures counted { result ≡ length (flat_map (sample_of plan.now node.now) plan.now.streams) }
    ensures few { result ≤ 8 }
{
    plan.invariant();
    let mut count = 0;
    for stream in plan.streams() {
        if next_wave(plan, node, stream).is_some() {
            count += 1;
        }
    }
    count
}

// The node, if it is to be lost.
fn if_lost(plan: &Plan, n: u32) -> Option<u32>
    ensures { result ≡ if_lost plan.now n }
{
    match plan.fault(n) {
        Some(_) => Some(n),
        None => None,
    }
}

impl<T: PrefixTree> NetNodes<T> {
    /// How many of the senders with frames waiting are not being lost.
    fn free_sender_count(&self, inbox: &Inbox<Frame>) -> u32
        requires losing { AreLossesCounted self.now }
        requires senders { length inbox.now.waiting ≤ 512 }
        ensures counted { result
            ≡ length (free_senders (events_out self.now.places.items) (senders_of inbox.now.waiting)) }
        ensures few { result ≤ 512 }
    {
        if !self.any_losing() {
            return inbox.sender_count() as u32;
        }
        let mut count = 0;
        for i in 0..inbox.sender_count() {
            let Some(sender) = inbox.sender(i) else {
                unreachable!()
            };
            if !self.is_losing(sender) {
                count += 1;
            }
        }
        count
    }

    /// How many events of a node may be claimed.
    fn event_count(&self, plan: &Plan, n: u32) -> u32
        requires parts { ArePartsOf plan.now self.now }
        requires losing { AreLossesCounted self.now }
        requires below { n < nodes plan.now }
        ensures { result ≡ length (claims_of plan.now self.now n) }
    {
        plan.invariant();
        if !self.is_up(n) {
            return 0;
        }
        let Place::Home(node) = &self.places[n as usize] else {
            return 0;
        };
        if is_doomed(plan, node) {
            return u32::from(!self.is_received_from(n));
        }
        let senders = self.free_sender_count(&self.inboxes[n as usize]);
        sample_count(plan, node) + senders + u32::from(node.has_running())
    }

    /// Counts the events of these nodes anew.
    fn count_nodes(&self, plan: &Plan, numbers: &[u32], counts: &mut CountTree)
        requires parts { ArePartsOf plan.now self.now }
        requires losing { AreLossesCounted self.now }
        requires below { AreNodes plan.now numbers.now }
        requires counted { AreClaimsCountedBut plan.now self.now numbers.now counts.old }
        ensures { AreClaimsCounted plan.now self.now counts.new }
    {
        for number in numbers {
            let n = *number;
            counts.set(n, self.event_count(plan, n));
        }
    }

    /// Counts the events of all nodes anew.
    pub fn count_all(&self, plan: &Plan, counts: &mut CountTree)
        requires parts { ArePartsOf plan.now self.now }
        requires losing { AreLossesCounted self.now }
        requires count { length counts.old ≡ nodes plan.now }
        ensures { AreClaimsCounted plan.now self.now counts.new }
    {
        for n in 0..plan.nodes() {
            counts.set(n, self.event_count(plan, n));
        }
    }

    /// Counts anew the events of all nodes of whom an event may have changed which may be claimed: its own node, the
    /// sender of what it receives, if that is to be lost, and these receivers; all nodes, if it is a loss.
    pub fn recount(&self, plan: &Plan, event: Event, receivers: &[u32], counts: &mut CountTree)
        requires parts { ArePartsOf plan.now self.now }
        requires losing { AreLossesCounted self.now }
        requires below { AreNodes plan.now (changed plan.now event receivers.now) }
        requires counted { AreClaimsCountedBut plan.now self.now (changed plan.now event receivers.now) counts.old }
        ensures { AreClaimsCounted plan.now self.now counts.new }
    {
        let own = event.node();
        let sender = match event {
            Event::Lose { .. } => return self.count_all(plan, counts),
            Event::Recv { from, .. } => if_lost(plan, from),
            Event::Sample { .. } | Event::Tick { .. } => None,
        };
        counts.set(own, self.event_count(plan, own));
        match sender {
            Some(n) => {
                counts.set(n, self.event_count(plan, n));
                self.count_nodes(plan, receivers, counts);
            }
            None => self.count_nodes(plan, receivers, counts),
        }
    }
}
