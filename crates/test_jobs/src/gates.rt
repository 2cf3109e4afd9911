//! A gate for runs of small jobs on several workers.

use overlay_event::{Event, Gate};

/// A gate that holds no event, and says that it may: so a run starts all of its workers, however small the job is.
pub struct BusyGate;

impl Gate for BusyGate {
    fn pass(&self, _event: &Event) {}

    fn may_wait(&self) -> bool {
        true
    }
}
