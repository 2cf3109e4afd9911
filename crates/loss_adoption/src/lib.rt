//! What a node of the overlay knows of its parent, its children and the nodes that are lost.
//!
//! A [`Kin`] begins as the plan has it: the node's nearest ancestor is its parent. [`Kin::on_down`] is for a loss that
//! the node hears of. If the parent is lost, the nearest ancestor that isn't known to be lost adopts the node, and the
//! [`Reaction`] names it. The adopting node learns of its new child by [`Kin::on_attach`]. [`Kin::complete`] tells
//! whether everything that still can come in of a wave has come in.
//!
//! ```text
//! let mut kin = Kin::new(alloc, plan, node)?;
//! if let Reaction::NewParent(parent) = kin.on_down(plan, lost)? {
//!     // ask `parent` to take this node as a child, and send it everything again
//! }
//! let all = kin.complete(plan, stream, covered);
//! ```
//!
//! A contract sees a `Kin` as the node's number, its parent, and the lists of its children and of the lost nodes, both
//! ascending (`specs/NodeKins.antt`, with the invariant `IsKinOf`). What a loss does is `after_loss` of `stat_plan`;
//! `specs/Reactions.antt` says when the parent changes, and `specs/Rows.antt` has small jobs as examples.
#![tactic(auto)]

mod complete;
mod init;
mod kin;
mod numbers;
mod reaction;

pub use kin::Kin;
pub use reaction::Reaction;
