//! The mutable state of a net, and how it begins.

ghost use Rattle.std.specs.Prelude.{[], IfOk};
ghost use Rattle.overlay_net.specs.Nets.{AllHome, IsReachedBy};
ghost use Rattle.overlay_net.specs.States.{IsNetState, net_at};

use crate::nodes::NetNodes;
use crate::place::Place;
use count_tree::CountTree;
use node_inbox::Inbox;
use overlay_core::Release;
use overlay_node::Node;
use prefix_tree::PrefixTree;
use stat_plan::Plan;
use std::alloc::{AllocError, Global};

/// The mutable state of a net.
#[derive(Drop)]
pub struct NetState<T: PrefixTree> {
    /// The nodes.
    pub nodes: NetNodes<T>,
    /// How many events of each node may be claimed, by node number.
    pub counts: CountTree,
    /// What was released, in order.
    pub releases: Vec<Release<T>>,
}

impl<T: PrefixTree> NetState<T> {
    /// The initial state of a net, that of the empty journal.
    pub fn new(alloc: Global, plan: &Plan) -> Result<NetState<T>, AllocError>
        ensures net { IfOk result (λ state. IsNetState T.tree plan.now state) }
        ensures reached { IfOk result (λ state. IsReachedBy (net_at T.tree plan.now state) []) }
        ensures home { IfOk result (λ state. AllHome (net_at T.tree plan.now state)) }
    {
        plan.invariant();
        let mut alive = Vec::new(alloc);
        let mut places = Vec::new(alloc);
        let mut inboxes = Vec::new(alloc);
        for n in 0..plan.nodes() {
            let node = Node::new(alloc, plan, n)?;
            let inbox = Inbox::new(alloc);
            alive.push(true)?;
            places.push(Place::Home(node))?;
            inboxes.push(inbox)?;
        }
        let losing = CountTree::new(alloc, plan.nodes())?;
        let mut counts = CountTree::new(alloc, plan.nodes())?;
        let start = NetNodes {
            alive,
            places,
            inboxes,
            losing,
        };
        start.count_all(plan, &mut counts);
        Ok(NetState {
            nodes: start,
            counts,
            releases: Vec::new(alloc),
        })
    }
}
