//! What a worker of a run passes between a claim and its commit.

use crate::Event;

/// A gate that each event of a run passes once: after a worker has claimed it, and before it is worked on and
/// committed. The workers pass it side by side, and none has the turn there. It may wait. It changes nothing of the
/// run, and has no errors.
pub trait Gate: Sync {
    /// Lets the event pass.
    fn pass(&self, event: &Event);

    /// Whether `pass` may wait for other events. A run at such a gate starts all of its workers before the first event
    /// passes; at any other it starts a worker only where there is enough to do for one.
    fn may_wait(&self) -> bool;
}

/// A gate at which nobody waits.
#[derive(Clone, Copy, Debug, PartialEq, Eq)]
pub struct OpenGate;

impl Gate for OpenGate {
    fn pass(&self, _event: &Event) {}

    fn may_wait(&self) -> bool {
        false
    }
}
