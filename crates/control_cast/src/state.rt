//! The mutable state of a net, and how it begins.

ghost use Rattle.std.specs.Prelude.{◌≡◌, ◌≤◌, true, slice_get, IfOk, OnOk};
ghost use Rattle.control_cast.specs.CastStates.{IsNetState, nodes_state, state_of};
ghost use Rattle.control_cast.specs.Machine.{enabled_events, is_enabled, start, step};

use crate::event::CastEvent;
use crate::nodes::{CastNodes, all_nodes};
use count_tree::CountTree;
use stat_plan::Plan;
use std::alloc::{AllocError, Global};

/// The mutable state of a net.
#[derive(Drop)]
pub struct CastState {
    /// The nodes, and what is on the way between them.
    pub nodes: CastNodes,
    /// How many events of each node may come next, by node number.
    pub counts: CountTree,
}

impl CastState {
    /// The state in which nothing has happened yet.
    pub fn new(alloc: Global, plan: &Plan, commands: u32) -> Result<CastState, AllocError>
        ensures net { IfOk result (IsNetState plan.now commands) }
        ensures start { IfOk result (λ state. state_of plan.now state ≡ start plan.now) }
    {
        plan.invariant();
        let nodes = CastNodes::new(alloc, plan)?;
        let all = all_nodes(alloc, plan)?;
        let mut counts = CountTree::new(alloc, plan.nodes())?;
        nodes.count(plan, commands, all.as_slice(), &mut counts);
        Ok(CastState { nodes, counts })
    }

    /// The `i`-th of the events that may come next, from 0. The counts say whose it is.
    pub fn nth_enabled(&self, plan: &Plan, commands: u32, i: u64) -> Option<CastEvent>
        requires { IsNetState plan.now commands self.now }
        ensures { result ≡ slice_get (enabled_events plan.now commands (state_of plan.now self.now)) i }
    {
        let Some((n, own)) = self.counts.find(i) else {
            return None;
        };
        self.nodes.node_event(plan, commands, n, own)
    }

    /// Does an event that may come next.
    pub fn apply(
        &mut self,
        alloc: Global,
        plan: &Plan,
        commands: u32,
        event: CastEvent,
    ) -> Result<(), AllocError>
        requires within_limit { commands ≤ 1000 }
        requires net { IsNetState plan.now commands self.old }
        requires enabled { is_enabled plan.now commands (state_of plan.now self.old) event ≡ true }
        ensures net { OnOk result (IsNetState plan.now commands self.new) }
        ensures step { OnOk result (state_of plan.now self.new ≡ step plan.now (state_of plan.now self.old) event) }
    {
        let changed = self.nodes.apply(alloc, plan, commands, event)?;
        self.nodes
            .count(plan, commands, changed.as_slice(), &mut self.counts);
        Ok(())
    }
}
