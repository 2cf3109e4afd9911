//! A node of the overlay. It holds what has come in of each of its waves, merges what its children send, and passes it
//! on or releases it when that is due. It goes on where its parent or its children are lost.
//!
//! [`Node::handle`] does one event: a daemon takes its samples of a wave, the node receives a frame, or its timers go
//! on by one. It returns the node afterwards and the effects of the event ([`Outgoing`]): the frames that the node
//! sends, each with its receiver, and what it releases. Which event may come next is for the caller to know;
//! [`Node::next_sample`] and [`Node::has_running`] tell it about samples and timers. An event fails only if memory runs
//! out, and the node is dropped then.
//!
//! ```text
//! let node = Node::new(alloc, plan, daemon)?;
//! if let Some(wave) = node.next_sample(stream) {
//!     let event = Event::Sample { node: daemon, stream, wave };
//!     let (node, effects) = node.handle(alloc, plan, event, None)?;
//!     // effects.sends: the frames for other nodes; effects.releases: empty but at the front end
//! }
//! ```
//!
//! A contract sees a node as its number, its kin, its book, what it holds of each wave, and how many events it has done
//! (`specs/NodeViews.antt`, which also says which events may come next). Each event does exactly what the machine of
//! `overlay_core` does, with frames in place of packets (`specs/Frames.antt`) and trees in place of the ranks that they
//! cover (`specs/Outputs.antt`). `specs/Acting.antt` has the machine's steps inside an event.
#![tactic(auto)]

mod actions;
mod context;
mod due;
mod events;
mod held;
mod init;
mod losses;
mod node;
mod output;
mod sending;
mod step;
mod work;

pub use node::Node;
pub use output::Outgoing;
