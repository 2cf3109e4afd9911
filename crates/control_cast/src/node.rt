//! A node of a cast, and what its events do.

ghost use Rattle.std.specs.Prelude.{◌≡◌, ◌<◌, ◌≤◌, ◌+◌, ◌-◌, ◌^◌, suc, [], IfOk, OnOk, map};
ghost use Rattle.stat_plan.specs.Machine.Kin.{start_kin};
ghost use Rattle.stat_plan.specs.Plans.{Plan, fault, nodes};
ghost use Rattle.stat_plan.specs.Machine.Overlays.{is_spent};
ghost use Rattle.loss_adoption.specs.NodeKins.{IsKinOf};
ghost use Rattle.control_cast.specs.CastNodes.{MayReceive, left_of, node_kin, obeyed_of, reaction_sends};
ghost use Rattle.control_cast.specs.Machine.{numbers_after, obey, received, received_attach, received_cmd, received_down, Cmd, Down};

use crate::packet::Packet;
use loss_adoption::{Kin, Reaction};
use stat_plan::Plan;
use std::alloc::{AllocError, Global};
use std::marker::Model;

/// A node of a cast.
#[derive(Drop)]
pub struct CastNode {
    alloc: Global,
    kin: Kin,
    // How many commands it has obeyed: they are the first ones, in order.
    seen: u32,
    // How many events it has done.
    count: u64,
}

impl Model for CastNode {
    ghost use Rattle.control_cast.specs.CastNodes.{NodeView, coded_node};

    ghost Value = { NodeView };

    ghost coded = { coded_node };

    ghost view = { λ n. record { number = n.kin.node; kin = n.kin.kin; seen = n.seen; count = n.count } };
}

// A command to each of these nodes.
fn to_each(alloc: Global, nodes: &[u32], i: u32) -> Result<Vec<(u32, Packet)>, AllocError>
    ensures { IfOk result (λ sends. sends.items ≡ map (λ c. (c, Cmd i)) nodes.now) }
{
    let mut sends = Vec::new(alloc);
    for n in nodes {
        sends.push((*n, Packet::Cmd(i)))?;
    }
    Ok(sends)
}

// The commands after `k`, up to `seen`, to a node.
fn to_one(alloc: Global, to: u32, k: u32, seen: u32) -> Result<Vec<(u32, Packet)>, AllocError>
    ensures { IfOk result (λ sends. sends.items ≡ map (λ i. (to, Cmd i)) (numbers_after k (seen - k))) }
{
    let mut sends = Vec::new(alloc);
    let mut i = k;
    while i < seen {
        i += 1;
        sends.push((to, Packet::Cmd(i)))?;
    }
    Ok(sends)
}

// What a node sends that heard of a loss: where it has a new parent, it attaches to it.
fn attach_to(alloc: Global, reaction: Reaction, seen: u32) -> Result<Vec<(u32, Packet)>, AllocError>
    ensures { IfOk result (λ sends. sends.items ≡ reaction_sends reaction seen) }
{
    let mut sends = Vec::new(alloc);
    if let Reaction::NewParent(parent) = reaction {
        sends.push((parent, Packet::Attach(seen)))?;
    }
    Ok(sends)
}

impl CastNode {
    /// A node that has done no event yet.
    pub fn new(alloc: Global, plan: &Plan, n: u32) -> Result<CastNode, AllocError>
        requires { n < nodes plan.now }
        ensures start { IfOk result
            (λ node. node ≡ record { number = n; kin = start_kin plan.now n; seen = 0; count = 0 }) }
        ensures fits { IfOk result (λ node. IsKinOf plan.now (node_kin node)) }
    {
        let kin = Kin::new(alloc, plan, n)?;
        Ok(CastNode {
            alloc,
            kin,
            seen: 0,
            count: 0,
        })
    }

    /// The node obeys the next command. Returns what it sends.
    pub fn obey(&mut self) -> Result<Vec<(u32, Packet)>, AllocError>
        requires { self.old.seen + 1 < 2 ^ 32 }
        ensures kin { OnOk result (self.new.kin ≡ self.old.kin) }
        ensures outcome { IfOk result (λ sends. left_of self.new sends.items
            ≡ obey self.old.kin (obeyed_of self.old) (suc self.old.seen)) }
        ensures number { OnOk result (self.new.number ≡ self.old.number) }
        ensures count { OnOk result (self.new.count ≡ self.old.count) }
    {
        let sends = to_each(self.alloc, self.kin.children(), self.seen + 1)?;
        self.seen += 1;
        Ok(sends)
    }

    /// The node receives a command. One out of turn is dropped.
    fn on_cmd(&mut self, i: u32) -> Result<Vec<(u32, Packet)>, AllocError>
        requires { self.old.seen + 1 < 2 ^ 32 }
        ensures kin { OnOk result (self.new.kin ≡ self.old.kin) }
        ensures outcome { IfOk result (λ sends. left_of self.new sends.items
            ≡ received_cmd self.old.kin (obeyed_of self.old) i) }
        ensures number { OnOk result (self.new.number ≡ self.old.number) }
        ensures count { OnOk result (self.new.count ≡ self.old.count) }
    {
        if i == self.seen + 1 {
            return self.obey();
        }
        Ok(Vec::new(self.alloc))
    }

    /// Another node is a child from now on, and gets the commands after those that it has obeyed.
    fn on_attach(&mut self, m: u32, k: u32) -> Result<Vec<(u32, Packet)>, AllocError>
        ensures outcome { IfOk result (λ sends. left_of self.new sends.items
            ≡ received_attach self.old.kin (obeyed_of self.old) m k) }
        ensures fits { OnOk result ((p : Plan) → IsKinOf p (node_kin self.old) → m < nodes p
            → IsKinOf p (node_kin self.new)) }
        ensures number { OnOk result (self.new.number ≡ self.old.number) }
        ensures count { OnOk result (self.new.count ≡ self.old.count) }
    {
        self.kin.on_attach(m)?;
        to_one(self.alloc, m, k, self.seen)
    }

    /// The node hears of a loss. Where its parent is lost, it attaches to another.
    fn on_down(&mut self, plan: &Plan, m: u32) -> Result<Vec<(u32, Packet)>, AllocError>
        requires kin { IsKinOf plan.now (node_kin self.old) }
        requires packet { MayReceive plan.now self.old.number m Down }
        ensures outcome { IfOk result (λ sends. left_of self.new sends.items
            ≡ received_down plan.now self.old.number self.old.kin (obeyed_of self.old) m) }
        ensures number { OnOk result (self.new.number ≡ self.old.number) }
        ensures count { OnOk result (self.new.count ≡ self.old.count) }
        ensures fits { OnOk result (IsKinOf plan.now (node_kin self.new)) }
    {
        let reaction = self.kin.on_down(plan, m)?;
        attach_to(self.alloc, reaction, self.seen)
    }

    /// The node receives a packet. Returns what it sends.
    pub fn receive(
        &mut self,
        plan: &Plan,
        from: u32,
        packet: Packet,
    ) -> Result<Vec<(u32, Packet)>, AllocError>
        requires room { self.old.seen + 1 < 2 ^ 32 }
        requires kin { IsKinOf plan.now (node_kin self.old) }
        requires packet { MayReceive plan.now self.old.number from packet }
        ensures outcome { IfOk result (λ sends. left_of self.new sends.items
            ≡ received plan.now self.old.number self.old.kin (obeyed_of self.old) from packet) }
        ensures number { OnOk result (self.new.number ≡ self.old.number) }
        ensures count { OnOk result (self.new.count ≡ self.old.count) }
        ensures fits { OnOk result (IsKinOf plan.now (node_kin self.new)) }
    {
        match packet {
            Packet::Cmd(i) => self.on_cmd(i),
            Packet::Attach(k) => self.on_attach(from, k),
            Packet::Down => self.on_down(plan, from),
        }
    }

    /// Whether its loss is all that may happen to the node.
    pub fn is_doomed(&self, plan: &Plan) -> bool
        ensures { result ≡ is_spent (fault plan.now self.now.number) self.now.count }
    {
        match plan.fault(self.kin.node()) {
            Some(fault) => self.count == fault.after as u64,
            None => false,
        }
    }

    /// The node's number.
    pub fn number(&self) -> u32
        ensures { result ≡ self.now.number }
    {
        self.kin.node()
    }

    /// How many commands the node has obeyed.
    pub fn seen(&self) -> u32
        ensures { result ≡ self.now.seen }
    {
        self.seen
    }

    /// The node has done one more event.
    pub fn count_event(&mut self)
        requires { self.old.count + 1 < 2 ^ 64 }
        ensures { self.new ≡ record {
          number = self.old.number;
          kin = self.old.kin;
          seen = self.old.seen;
          count = suc self.old.count;
        } }
    {
        self.count += 1;
    }
}
