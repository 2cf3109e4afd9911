//! A claim that has a node out.
use overlay_event::Event;

/// A claim that has a node out.
#[derive(Clone, Copy, Debug, PartialEq, Eq)]
pub struct Holding {
    /// The number of the seat that has it out.
    pub seat: u32,
    /// The event that was claimed. Its node is the node that is out.
    pub event: Event,
    /// The journal's length at the claim.
    pub since: u64,
}
