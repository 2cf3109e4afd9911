//! The nodes of a net and what is on the way between them, and what an event does to them.

ghost use Rattle.std.specs.Prelude.{◌≡◌, ◌≢◌, ◌<◌, ◌≤◌, ◌+◌, ◌^◌, ◌∷◌, [], true, length, map, IfOk, OnOk};
ghost use Rattle.stat_plan.specs.Plans.{front, nodes};
ghost use Rattle.loss_adoption.specs.NodeKins.{IsKinOf};
ghost use Rattle.node_inbox.specs.Inboxes.{queue_of};
ghost use Rattle.node_inbox.specs.Sends.{AreSent, inbox_at, is_alive, GoBelow};
ghost use Rattle.control_cast.specs.CastNets.{HasChanged, IsFirst, node_at, obeyed_at, received_at};
ghost use Rattle.control_cast.specs.CastNodes.{MayReceive, node_kin};
ghost use Rattle.control_cast.specs.CastStates.{AreInitialOf, ArePartsOf, HasDoneOf, IsNetOf, event_node, may_come, nodes_state};
ghost use Rattle.control_cast.specs.Machine.{is_enabled};
ghost use Rattle.control_cast.specs.declared.event.CastEvent.TheVariants.{Issue, Recv, Lose};
ghost use Rattle.control_cast.specs.declared.packet.Packet.{Packet as MachinePacket};
ghost use Rattle.overlay_setup.specs.NodeSets.{In, up_to};
ghost use Rattle.stat_plan.specs.Machine.Overlays.{is_pending};

use crate::event::CastEvent;
use crate::loss::{cut_links, notices};
use crate::node::CastNode;
use crate::packet::Packet;
use node_inbox::{Inbox, deliver, make_rooms};
use stat_plan::Plan;
use std::alloc::{AllocError, Global};

/// The nodes of a cast, each by its number, and what is on the way between them.
#[derive(Drop)]
pub struct CastNodes {
    /// Whether each node lives.
    pub alive: Vec<bool>,
    /// What each node knows and has obeyed.
    pub members: Vec<CastNode>,
    /// What waits for each node.
    pub inboxes: Vec<Inbox<Packet>>,
}

/// Takes the first packet that waits from a node for another.
fn take_packet(inboxes: &mut [Inbox<Packet>], n: u32, from: u32) -> Packet
    requires below { n < length inboxes.old }
    requires waiting { queue_of (inbox_at inboxes.old n) from ≢ [] }
    ensures { IsFirst from n result inboxes.old inboxes.new }
{
    inboxes[n as usize].take(from)
}

/// A node obeys the next command. Returns what it sends.
fn obey_at(plan: &Plan, nodes: &mut [CastNode], n: u32) -> Result<Vec<(u32, Packet)>, AllocError>
    requires below { n < length nodes.old }
    requires number { (node_at plan.now nodes.old n).number ≡ n }
    requires kin { IsKinOf plan.now (node_kin (node_at plan.now nodes.old n)) }
    requires seen { (node_at plan.now nodes.old n).seen + 1 < 2 ^ 32 }
    requires count { (node_at plan.now nodes.old n).count + 1 < 2 ^ 64 }
    ensures { IfOk result
        (λ sends. HasChanged plan.now n nodes.old nodes.new (obeyed_at plan.now nodes.old n) sends.items) }
{
    let node = &mut nodes[n as usize];
    node.count_event();
    node.obey()
}

/// A node receives a packet. Returns what it sends.
fn receive_at(
    plan: &Plan,
    nodes: &mut [CastNode],
    n: u32,
    from: u32,
    packet: Packet,
) -> Result<Vec<(u32, Packet)>, AllocError>
    requires below { n < length nodes.old }
    requires number { (node_at plan.now nodes.old n).number ≡ n }
    requires kin { IsKinOf plan.now (node_kin (node_at plan.now nodes.old n)) }
    requires seen { (node_at plan.now nodes.old n).seen + 1 < 2 ^ 32 }
    requires count { (node_at plan.now nodes.old n).count + 1 < 2 ^ 64 }
    requires packet { MayReceive plan.now n from packet }
    ensures { IfOk result (λ sends. HasChanged plan.now n nodes.old nodes.new
        (received_at plan.now nodes.old n from packet) sends.items) }
{
    let node = &mut nodes[n as usize];
    node.count_event();
    node.receive(plan, from, packet)
}

/// Puts what a node sends into the inboxes of its receivers that live.
fn send(
    alloc: Global,
    alive: &[bool],
    n: u32,
    sends: Vec<(u32, Packet)>,
    inboxes: &mut [Inbox<Packet>],
) -> Result<(), AllocError>
    requires { GoBelow (length inboxes.old) sends.items }
    ensures { OnOk result (AreSent alive.now n sends.items inboxes.old inboxes.new) }
{
    make_rooms(alloc, n, sends.as_slice(), inboxes)?;
    deliver(n, sends, alive, inboxes);
    Ok(())
}

/// A node, and the receivers of what it sends.
fn with_receivers(alloc: Global, n: u32, sends: &[(u32, Packet)]) -> Result<Vec<u32>, AllocError>
    ensures { IfOk result (λ numbers. numbers.items ≡ n ∷ map (λ v. v.0) sends.now) }
{
    let mut numbers = Vec::with_capacity(alloc, sends.len() + 1)?;
    numbers.push(n)?;
    for (to, _) in sends {
        numbers.push(*to)?;
    }
    Ok(numbers)
}

/// The numbers of all nodes.
pub fn all_nodes(alloc: Global, plan: &Plan) -> Result<Vec<u32>, AllocError>
    ensures { IfOk result (λ numbers. numbers.items ≡ up_to (nodes plan.now)) }
{
    let mut numbers = Vec::new(alloc);
    for n in 0..plan.nodes() {
        numbers.push(n)?;
    }
    Ok(numbers)
}

/// Whether a packet waits from a node.
fn is_waiting(inbox: &Inbox<Packet>, from: u32) -> bool
    ensures { result ≡ is_pending (queue_of inbox.now.waiting from) }
{
    inbox.first(from).is_some()
}

/// The node at which an event happens.
fn event_node(plan: &Plan, event: CastEvent) -> u32
    ensures { result ≡ event_node plan.now event }
{
    match event {
        CastEvent::Issue => plan.front(),
        CastEvent::Recv { node, .. } | CastEvent::Lose { node } => node,
    }
}

/// Whether an event of a living node may come next.
fn may_be_next(
    plan: &Plan,
    commands: u32,
    node: &CastNode,
    inbox: &Inbox<Packet>,
    event: CastEvent,
) -> bool
    ensures { result ≡ may_come plan.now commands node.now inbox.now.waiting event }
{
    let doomed = node.is_doomed(plan);
    match event {
        CastEvent::Issue => !doomed && node.seen() < commands,
        CastEvent::Recv { from, .. } => !doomed && is_waiting(inbox, from),
        CastEvent::Lose { .. } => doomed,
    }
}

impl CastNodes {
    /// The nodes, of which nothing has happened yet.
    pub fn new(alloc: Global, plan: &Plan) -> Result<CastNodes, AllocError>
        ensures { IfOk result (AreInitialOf plan.now) }
    {
        let mut alive = Vec::new(alloc);
        let mut members = Vec::new(alloc);
        let mut inboxes = Vec::new(alloc);
        for n in 0..plan.nodes() {
            let node = CastNode::new(alloc, plan, n)?;
            let inbox = Inbox::new(alloc);
            alive.push(true)?;
            members.push(node)?;
            inboxes.push(inbox)?;
        }
        Ok(CastNodes {
            alive,
            members,
            inboxes,
        })
    }

    /// Whether a node lives. A number that is no node's doesn't.
    pub fn is_up(&self, n: u32) -> bool
        ensures { result ≡ is_alive self.now.alive.items n }
    {
        let i = n as usize;
        i < self.alive.len() && self.alive[i]
    }

    /// Whether an event may come next. Events of nodes that the plan doesn't have may be asked for too.
    pub fn is_enabled(&self, plan: &Plan, commands: u32, event: CastEvent) -> bool
        requires { ArePartsOf plan.now self.now }
        ensures { result ≡ is_enabled plan.now commands (nodes_state plan.now self.now) event }
    {
        let n = event_node(plan, event);
        if !self.is_up(n) {
            return false;
        }
        let i = n as usize;
        may_be_next(plan, commands, &self.members[i], &self.inboxes[i], event)
    }

    /// The front end issues the next command. Returns the nodes of which other events may come next now.
    fn issue(&mut self, alloc: Global, plan: &Plan) -> Result<Vec<u32>, AllocError>
        requires parts { ArePartsOf plan.now self.old }
        requires seen { (node_at plan.now self.old.members.items (front plan.now)).seen + 1 < 2 ^ 32 }
        requires count { (node_at plan.now self.old.members.items (front plan.now)).count + 1 < 2 ^ 64 }
        ensures { IfOk result (λ changed. HasDoneOf plan.now Issue changed.items self.old self.new) }
    {
        let n = plan.front();
        let sends = obey_at(plan, self.members.as_mut_slice(), n)?;
        let changed = with_receivers(alloc, n, sends.as_slice())?;
        send(
            alloc,
            self.alive.as_slice(),
            n,
            sends,
            self.inboxes.as_mut_slice(),
        )?;
        Ok(changed)
    }

    /// A node receives the first packet that waits from another. Returns the nodes of which other events may come next
    /// now.
    fn receive(
        &mut self,
        alloc: Global,
        plan: &Plan,
        n: u32,
        from: u32,
    ) -> Result<Vec<u32>, AllocError>
        requires parts { ArePartsOf plan.now self.old }
        requires below { n < nodes plan.now }
        requires waiting { queue_of (inbox_at self.old.inboxes.items n) from ≢ [] }
        requires fits { (q : MachinePacket) → In q (queue_of (inbox_at self.old.inboxes.items n) from)
            → MayReceive plan.now n from q }
        requires seen { (node_at plan.now self.old.members.items n).seen + 1 < 2 ^ 32 }
        requires count { (node_at plan.now self.old.members.items n).count + 1 < 2 ^ 64 }
        ensures { IfOk result (λ changed. HasDoneOf plan.now (Recv n from) changed.items self.old self.new) }
    {
        plan.invariant();
        let packet = take_packet(self.inboxes.as_mut_slice(), n, from);
        let sends = receive_at(plan, self.members.as_mut_slice(), n, from, packet)?;
        let changed = with_receivers(alloc, n, sends.as_slice())?;
        send(
            alloc,
            self.alive.as_slice(),
            n,
            sends,
            self.inboxes.as_mut_slice(),
        )?;
        Ok(changed)
    }

    /// A node is lost. Returns the nodes of which other events may come next now.
    fn lose(&mut self, alloc: Global, plan: &Plan, n: u32) -> Result<Vec<u32>, AllocError>
        requires parts { ArePartsOf plan.now self.old }
        requires below { n < nodes plan.now }
        ensures { IfOk result (λ changed. HasDoneOf plan.now (Lose n) changed.items self.old self.new) }
    {
        plan.invariant();
        let sends = notices(alloc, plan, n)?;
        let changed = all_nodes(alloc, plan)?;
        cut_links(plan, n, self.inboxes.as_mut_slice());
        send(
            alloc,
            self.alive.as_slice(),
            n,
            sends,
            self.inboxes.as_mut_slice(),
        )?;
        self.alive[n as usize] = false;
        Ok(changed)
    }

    /// Does an event that may come next. Returns the nodes of which other events may come next now.
    pub fn apply(
        &mut self,
        alloc: Global,
        plan: &Plan,
        commands: u32,
        event: CastEvent,
    ) -> Result<Vec<u32>, AllocError>
        requires within_limit { commands ≤ 1000 }
        requires net { IsNetOf plan.now commands self.old }
        requires enabled { is_enabled plan.now commands (nodes_state plan.now self.old) event ≡ true }
        ensures { IfOk result (λ changed. HasDoneOf plan.now event changed.items self.old self.new) }
    {
        plan.invariant();
        match event {
            CastEvent::Issue => self.issue(alloc, plan),
            CastEvent::Recv { node, from } => self.receive(alloc, plan, node, from),
            CastEvent::Lose { node } => self.lose(alloc, plan, node),
        }
    }
}
