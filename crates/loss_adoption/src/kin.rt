//! A node's kin, and what a loss does to it.

ghost use Rattle.std.specs.Prelude.{◌≡◌, ◌≢◌, ◌<◌, IfOk, OnErr, OnOk, true};
ghost use Rattle.stat_plan.specs.Machine.Kin.{after_loss, complete, start_kin, with_child};
ghost use Rattle.stat_plan.specs.Plans.{Plan, front, is_related, nodes};
ghost use Rattle.loss_adoption.specs.NodeKins.{IsKinOf, NodeKin};
ghost use Rattle.loss_adoption.specs.Reactions.{IsReactionTo};

use crate::complete::is_complete;
use crate::init::{children_of, is_parent, nearest, parent_of};
use crate::numbers::{insert_number, remove_number};
use crate::reaction::Reaction;
use rank_set::RankSet;
use stat_plan::Plan;
use std::alloc::{AllocError, Global};
use std::marker::Model;

/// What a node knows of its parent, its children and the nodes that are lost.
#[derive(Drop)]
pub struct Kin {
    node: u32,
    // None at the front end.
    parent: Option<u32>,
    // Ascending.
    children: Vec<u32>,
    // Ascending.
    lost: Vec<u32>,
}

impl Model for Kin {
    ghost use Rattle.loss_adoption.specs.NodeKins.{NodeKin, coded_node_kin};

    ghost Value = { NodeKin };

    ghost coded = { coded_node_kin };

    ghost view = { λ k. record {
      node = k.node;
      kin = record { parent = k.parent; children = k.children.items; lost = k.lost.items };
    } };
}

impl Kin {
    /// The kin of a node that knows of no loss. Its nearest ancestor is its parent, and the nodes whose nearest
    /// ancestor it is are its children. A daemon has none, and they are not looked for.
    ///
    /// # Errors
    ///
    /// Out of memory.
    pub fn new(alloc: Global, plan: &Plan, n: u32) -> Result<Kin, AllocError>
        requires { n < nodes plan.now }
        ensures start { IfOk result (λ kin. kin ≡ record { node = n; kin = start_kin plan.now n }) }
        ensures fits { IfOk result (IsKinOf plan.now) }
    {
        plan.invariant();
        let children = children_of(alloc, plan, n)?;
        Ok(Kin {
            node: n,
            parent: parent_of(plan, n),
            children,
            lost: Vec::new(alloc),
        })
    }

    /// The node hears that another is lost, an ancestor or a descendant. The lost node is no child any more. If it was
    /// the parent, the nearest ancestor that isn't known to be lost takes its place, and the reaction names it.
    ///
    /// # Errors
    ///
    /// Out of memory; then nothing has changed.
    pub fn on_down(&mut self, plan: &Plan, lost: u32) -> Result<Reaction, AllocError>
        requires kin { IsKinOf plan.now self.old }
        requires related { is_related plan.now self.old.node lost ≡ true }
        requires not_front { lost ≢ front plan.now }
        ensures kin { OnOk result (self.new
            ≡ record { node = self.old.node; kin = after_loss plan.now self.old.node self.old.kin lost }) }
        ensures reaction { IfOk result (IsReactionTo self.old lost self.new) }
        ensures fits { OnOk result (IsKinOf plan.now self.new) }
        ensures unchanged { OnErr result (self.new ≡ self.old) }
    {
        plan.invariant();
        insert_number(&mut self.lost, lost)?;
        if !is_parent(self.parent, lost) {
            remove_number(&mut self.children, lost);
            return Ok(Reaction::Stay);
        }
        match nearest(plan.ancestors(self.node), self.lost.as_slice()) {
            Some(parent) => {
                self.parent = Some(parent);
                Ok(Reaction::NewParent(parent))
            }
            None => unreachable!(),
        }
    }

    /// Another node is a child from now on.
    ///
    /// # Errors
    ///
    /// Out of memory; then nothing has changed.
    pub fn on_attach(&mut self, child: u32) -> Result<(), AllocError>
        ensures kin { OnOk result (self.new ≡ record { node = self.old.node; kin = with_child self.old.kin child }) }
        ensures fits { OnOk result ((p : Plan) → IsKinOf p self.old → child < nodes p → IsKinOf p self.new) }
        ensures unchanged { OnErr result (self.new ≡ self.old) }
    {
        insert_number(&mut self.children, child)
    }

    /// Whether everything that still can come in of a wave of the stream has come in, if these ranks have: each daemon
    /// of the stream that is the node or its descendant has its ranks among them, or is known to be lost.
    pub fn complete(&self, plan: &Plan, s: u8, covered: &RankSet) -> bool
        requires { self.now.node < nodes plan.now }
        ensures { result ≡ complete plan.now self.now.node self.now.kin.lost s covered.now }
    {
        is_complete(plan, self.node, self.lost.as_slice(), s, covered)
    }

    /// The node's number.
    pub fn node(&self) -> u32
        ensures { result ≡ self.now.node }
    {
        self.node
    }

    /// The node's parent, none at the front end.
    pub fn parent(&self) -> Option<u32>
        ensures { result ≡ self.now.kin.parent }
    {
        self.parent
    }

    /// The node's children, ascending.
    pub fn children(&self) -> &[u32]
        ensures { result.now ≡ self.now.kin.children }
    {
        self.children.as_slice()
    }

    /// The nodes that the node knows to be lost, ascending.
    pub fn lost(&self) -> &[u32]
        ensures { result.now ≡ self.now.kin.lost }
    {
        self.lost.as_slice()
    }
}
