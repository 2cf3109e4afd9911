//! The context of a node's events.

use loss_adoption::Kin;
use stat_plan::Plan;

/// What the events of a node need to know besides its waves.
#[derive(Clone, Copy)]
pub struct NodeContext<'a> {
    /// The plan.
    pub plan: &'a Plan,
    /// The node's number and its kin.
    pub kin: &'a Kin,
}
