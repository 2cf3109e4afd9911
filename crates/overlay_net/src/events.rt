//! The events that may be claimed: those of a node by index, and whether an event is one of them.

ghost use Rattle.std.specs.Prelude.{◌≡◌, ◌<◌, ◌&&◌, ◌∷◌, [], filter, map, slice_get};
ghost use Rattle.std.specs.List.{flat_map};
ghost use Rattle.overlay_event.specs.declared.event.Event.TheVariants.{Lose, Recv};
ghost use Rattle.overlay_setup.specs.NodeSets.{In, member};
ghost use Rattle.stat_plan.specs.Plans.{daemons, nodes};
ghost use Rattle.overlay_core.specs.Machine.{is_enabled, is_wave, next_sample};
ghost use Rattle.overlay_node.specs.NodeViews.{IsNodeOf, node_of};
ghost use Rattle.event_claims.specs.Claims.{claimable_events, is_free};
ghost use Rattle.node_inbox.specs.Inboxes.{senders_of};
ghost use Rattle.overlay_net.specs.Nets.{AllHome, active_events, is_doomed_node, outs_of, sample_of};
ghost use Rattle.overlay_net.specs.Places.{events_out};
ghost use Rattle.overlay_net.specs.Events.{IsNth, free_senders, may_come, sample_at};
ghost use Rattle.overlay_net.specs.States.{AreLossesCounted, ArePartsOf, IsNetState, claims_of, net_at, state_at};

use crate::nodes::NetNodes;
use crate::place::Place;
use crate::state::NetState;
use node_inbox::Inbox;
use overlay_event::Event;
use overlay_node::Node;
use overlay_setup::StreamDef;
use packet_frame::Frame;
use prefix_tree::PrefixTree;
use stat_plan::Plan;

/// What an index finds in a list of events.
pub enum Nth {
    /// This event.
    Found(Event),
    /// No event: the index is beyond the list by this much.
    Beyond(u64),
}

/// The wave of a stream whose samples the node takes next, if it takes any.
pub fn next_wave<T: PrefixTree>(plan: &Plan, node: &Node<T>, stream: &StreamDef) -> Option<u8>
    requires node { IsNodeOf plan.now node.now }
    requires stream { In stream.now plan.now.streams }
    ensures { sample_of plan.now node.now stream.now ≡ sample_at node.now.number stream.now.number result }
{
    plan.invariant();
    let n = node.number();
    if plan.is_daemon(n) && plan.serves(n, stream.number()) {
        node.next_sample(stream.number())
    } else {
        None
    }
}

/// The `i`-th of a node's samples that may come next, from 0.
fn sample_event<T: PrefixTree>(plan: &Plan, node: &Node<T>, i: u64) -> Nth
    requires { IsNodeOf plan.now node.now }
    ensures { IsNth (flat_map (sample_of plan.now node.now) plan.now.streams) i result }
{
    let mut left = i;
    for stream in plan.streams() {
        if let Some(wave) = next_wave(plan, node, stream) {
            if left == 0 {
                return Nth::Found(Event::Sample {
                    node: node.number(),
                    stream: stream.number(),
                    wave,
                });
            }
            left -= 1;
        }
    }
    Nth::Beyond(left)
}

/// Whether its loss is all that may happen to the node.
pub fn is_doomed<T: PrefixTree>(plan: &Plan, node: &Node<T>) -> bool
    ensures { result ≡ is_doomed_node plan.now node.now }
{
    match plan.fault(node.number()) {
        Some(fault) => node.count() == fault.after as u64,
        None => false,
    }
}

/// The loss of a node, if `i` is 0.
fn loss_event(n: u32, i: u64) -> Nth
    ensures { IsNth (Lose n ∷ []) i result }
{
    if i == 0 {
        Nth::Found(Event::Lose { node: n })
    } else {
        Nth::Beyond(i - 1)
    }
}

/// Whether an event of a living node may come next.
fn may_be_next<T: PrefixTree>(
    plan: &Plan,
    node: &Node<T>,
    inbox: &Inbox<Frame>,
    event: Event,
) -> bool
    requires { IsNodeOf plan.now node.now }
    ensures { result ≡ may_come plan.now node.now inbox.now.waiting event }
{
    let doomed = is_doomed(plan, node);
    match event {
        Event::Sample { stream, wave, .. } => !doomed && is_next_wave(plan, node, stream, wave),
        Event::Recv { from, .. } => !doomed && inbox.is_waiting(from),
        Event::Tick { .. } => !doomed && node.has_running(),
        Event::Lose { .. } => doomed,
    }
}

/// Whether the plan has the stream, and this is the wave whose samples the node takes next.
fn is_next_wave<T: PrefixTree>(plan: &Plan, node: &Node<T>, s: u8, wave: u8) -> bool
    requires { IsNodeOf plan.now node.now }
    ensures { result
        ≡ (member node.now.number (daemons plan.now s) && is_wave (next_sample plan.now (node_of node.now) s) wave) }
{
    plan.invariant();
    match plan.stream(s) {
        Some(stream) => next_wave(plan, node, stream) == Some(wave),
        None => false,
    }
}

impl<T: PrefixTree> NetNodes<T> {
    /// The `i`-th of the events by which a node may receive, from 0, where the sender is not being lost.
    fn receive_event(&self, n: u32, inbox: &Inbox<Frame>, i: u64) -> Nth
        requires { AreLossesCounted self.now }
        ensures { IsNth (map (λ m. Recv n m)
            (free_senders (events_out self.now.places.items) (senders_of inbox.now.waiting))) i result }
    {
        if !self.any_losing() {
            return match inbox.sender(i as usize) {
                Some(from) => Nth::Found(Event::Recv { node: n, from }),
                None => Nth::Beyond(i - inbox.sender_count() as u64),
            };
        }
        let mut left = i;
        for k in 0..inbox.sender_count() {
            let Some(from) = inbox.sender(k) else {
                unreachable!()
            };
            if !self.is_losing(from) {
                if left == 0 {
                    return Nth::Found(Event::Recv { node: n, from });
                }
                left -= 1;
            }
        }
        Nth::Beyond(left)
    }

    /// The `i`-th of the events that may be claimed of a node that is at home and not to be lost next, from 0.
    fn active_event(&self, plan: &Plan, node: &Node<T>, inbox: &Inbox<Frame>, i: u64) -> Nth
        requires node { IsNodeOf plan.now node.now }
        requires losing { AreLossesCounted self.now }
        ensures { IsNth (filter (is_free plan.now (events_out self.now.places.items))
            (active_events plan.now node.now inbox.now.waiting)) i result }
    {
        plan.invariant();
        let left = match sample_event(plan, node, i) {
            Nth::Found(event) => return Nth::Found(event),
            Nth::Beyond(left) => left,
        };
        let left = match self.receive_event(node.number(), inbox, left) {
            Nth::Found(event) => return Nth::Found(event),
            Nth::Beyond(left) => left,
        };
        if !node.has_running() {
            return Nth::Beyond(left);
        }
        if left > 0 {
            return Nth::Beyond(left - 1);
        }
        Nth::Found(Event::Tick {
            node: node.number(),
        })
    }

    /// The `i`-th of the events of a node that may be claimed, from 0. A node that is lost or out has none.
    fn node_event(&self, plan: &Plan, n: u32, i: u64) -> Nth
        requires parts { ArePartsOf plan.now self.now }
        requires losing { AreLossesCounted self.now }
        requires below { n < nodes plan.now }
        ensures { IsNth (claims_of plan.now self.now n) i result }
    {
        if !self.is_up(n) {
            return Nth::Beyond(i);
        }
        let Place::Home(node) = &self.places[n as usize] else {
            return Nth::Beyond(i);
        };
        if !is_doomed(plan, node) {
            return self.active_event(plan, node, &self.inboxes[n as usize], i);
        }
        if self.is_received_from(n) {
            return Nth::Beyond(i);
        }
        loss_event(n, i)
    }
}

impl<T: PrefixTree> NetState<T> {
    /// The `i`-th of the events that may be claimed, from 0. They are ordered by node, and those of a node as its loss,
    /// its samples by stream, what it may receive by sender, and its tick. The counts say whose it is.
    pub fn claimable(&self, plan: &Plan, i: u64) -> Option<Event>
        requires { IsNetState T.tree plan.now self.now }
        ensures { result ≡ slice_get (claimable_events plan.now (state_at T.tree plan.now self.now)
            (outs_of (net_at T.tree plan.now self.now))) i }
    {
        plan.invariant();
        let Some((n, own)) = self.counts.find(i) else {
            return None;
        };
        match self.nodes.node_event(plan, n, own) {
            Nth::Found(event) => Some(event),
            Nth::Beyond(_) => unreachable!(),
        }
    }

    /// Whether an event may come next, where no node is out. Events of nodes, streams and waves that the plan doesn't
    /// have may be asked for too.
    pub fn is_enabled(&self, plan: &Plan, event: Event) -> bool
        requires net { IsNetState T.tree plan.now self.now }
        requires home { AllHome (net_at T.tree plan.now self.now) }
        ensures { result ≡ is_enabled plan.now (state_at T.tree plan.now self.now) event }
    {
        let n = event.node();
        if !self.nodes.is_up(n) {
            return false;
        }
        let Place::Home(node) = &self.nodes.places[n as usize] else {
            unreachable!()
        };
        may_be_next(plan, node, &self.nodes.inboxes[n as usize], event)
    }
}
