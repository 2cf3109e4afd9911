//! What goes over a link.

/// The kind of a packet with a tree: a number, the second byte of its frame.
pub(crate) const UP: u8 = 1;

/// The kind of a packet for a wave that is done.
pub(crate) const DONE: u8 = 2;

/// The kind of a packet of a node that asks to be taken in.
pub(crate) const ATTACH: u8 = 3;

/// The kind of a packet for a lost node.
pub(crate) const DOWN: u8 = 4;

/// A packet. Streams are below 8, waves below 16.
#[derive(Drop)]
pub enum Packet<T> {
    /// The tree of what a node knows of a wave, towards the front end.
    Up { stream: u8, wave: u8, tree: T },
    /// A wave is done, towards the daemons.
    Done { stream: u8, wave: u8 },
    /// A node whose parent was lost asks to be taken in.
    Attach,
    /// A node was lost.
    Down,
}
