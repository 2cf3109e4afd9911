//! The events of the machine.

/// One step of the machine. Nodes, streams and waves go by their numbers in the plan.
#[derive(Clone, Copy, Debug, PartialEq, Eq)]
pub enum Event {
    /// The daemon `node` takes its samples of a wave of a stream.
    Sample { node: u32, stream: u8, wave: u8 },
    /// `node` receives the first packet of the link from the node `from`.
    Recv { node: u32, from: u32 },
    /// The timers of `node` go on by one.
    Tick { node: u32 },
    /// `node` is lost.
    Lose { node: u32 },
}

impl Event {
    ghost use Rattle.std.specs.Prelude.{◌≡◌};
    ghost use Rattle.overlay_event.specs.Events.{event_node};

    /// The node at which it happens.
    pub fn node(self) -> u32
        ensures { result ≡ event_node self }
    {
        match self {
            Event::Sample { node, .. }
            | Event::Recv { node, .. }
            | Event::Tick { node }
            | Event::Lose { node } => node,
        }
    }
}
