//! Words of the overlay's machine: what a node may do about a wave, and the timer of a wave.
//!
//! They say nothing of a plan's files. They stand here because the filters, the machine and its nodes all use them, and
//! this is the lowest crate under all of these. Their definitions are in `specs/Machine/`.

/// The timer of a wave that a node works on.
#[derive(Clone, Copy, Debug, PartialEq, Eq)]
pub enum Timer {
    /// It doesn't run.
    Off,
    /// It runs for this many more ticks, at least one.
    Running(u16),
    /// It has run out.
    Fired,
}

/// What is due for a wave that a node works on.
#[derive(Clone, Copy, Debug, PartialEq, Eq)]
pub enum Act {
    /// Nothing.
    Hold,
    /// The timer starts.
    Arm,
    /// What is covered goes to the parent.
    Send,
    /// The front end gives out what is covered so far.
    Partial,
    /// The front end gives out what is covered, and the wave ends.
    Final,
}
