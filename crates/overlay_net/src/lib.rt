//! The overlay as a whole: its nodes, the packets between them, and what the front end has released.
//!
//! A [`Net`] is in the state that the events so far lead to, and a contract sees it as a `NetView`: the plan, which
//! nodes live, the nodes, the packets that wait for each, what was released, and the event with which each node is out.
//! `IsReachedBy net journal` says that this journal leads to it.
//!
//! An event is done by [`Net::apply`], where no node is out. Several events are worked on beside each other in four
//! steps: [`Net::claim`] takes the event's node out of the net, [`Claimed::work`] does the event, [`Net::prepare`]
//! makes room for what the node sends and releases, and [`Net::commit`] brings the node home and delivers. Only `work`
//! and `prepare` take memory.
//!
//! ```text
//! let mut net: Net<'_, OwnedTree> = Net::new(alloc, &plan)?;
//! while let Some(event) = net.claimable(0) {
//!     let claim = net.claim(event).work(alloc, &plan)?;
//!     net.prepare(alloc, &claim)?;
//!     net.commit(claim);
//! }
//! net.releases()    // what the front end has released, in order
//! ```
//!
//! What contracts see is in `specs/Nets.antt` and `specs/Claims.antt`, and what the four steps do in
//! `specs/States.antt`. `docs/MACHINE.md` says which events may be out together.
#![tactic(auto)]

mod claimed;
mod claims;
mod counting;
mod events;
mod loss;
mod net;
mod nodes;
mod pick;
mod place;
mod state;

pub use claimed::Claimed;
pub use net::{Net, NetError};
