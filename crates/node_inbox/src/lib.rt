//! What waits for a node, by sender, with room that is made before.
//!
//! [`Inbox::make_room`] is the only call that takes memory, so the only one that can fail; each [`Inbox::put`] after
//! it uses one place of the room and cannot fail. So a caller can make all room first, and then deliver without being
//! stopped halfway: [`make_rooms`] makes room for all that a node sends, and [`deliver`] puts it into the inboxes of
//! the receivers.
//!
//! ```text
//! make_rooms(alloc, from, sends.as_slice(), inboxes)?;
//! // .. all else that can fail
//! deliver(from, sends, alive, inboxes);
//! while let Some(sender) = inboxes[0].sender(0) {
//!     let item = inboxes[0].take(sender);
//! }
//! ```
//!
//! A sender's queue stays when it is emptied, and with it its room. [`cut_all`] is what the loss of a node does to all
//! inboxes: it takes no memory either.
#![tactic(auto)]

mod delivery;
mod inbox;
mod loss;
mod senders;

pub use delivery::{deliver, make_rooms};
pub use inbox::Inbox;
pub use loss::cut_all;
