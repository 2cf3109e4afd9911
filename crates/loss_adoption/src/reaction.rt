//! What a node does when it hears of a loss.

/// What a node does when it hears of a loss.
#[derive(Clone, Copy, PartialEq, Eq, Debug)]
pub enum Reaction {
    /// The lost node wasn't the parent: nothing.
    Stay,
    /// The parent was lost: this node is the parent from now on, and has to be told so.
    NewParent(u32),
}
