//! What the front end gives out.

/// Whether more of the wave can come.
#[derive(Clone, Copy, Debug, PartialEq, Eq)]
pub enum Kind {
    /// The wave goes on.
    Partial,
    /// The wave has ended: this is its last release.
    Final,
}

/// What the front end gives out of a wave: the tree over the ranks that have come in.
#[derive(Drop)]
pub struct Release<T> {
    /// The stream's number.
    pub stream: u8,
    /// The wave's number in its stream.
    pub wave: u8,
    /// The number of this release within its wave, from 1.
    pub number: u32,
    /// Whether it is the wave's last.
    pub kind: Kind,
    /// What was merged.
    pub tree: T,
    /// The nodes that the front end knew to be lost, ascending.
    pub lost: Vec<u32>,
}
