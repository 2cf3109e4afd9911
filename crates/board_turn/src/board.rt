//! What a board of nodes must provide.
ghost use Rattle.std.specs.Prelude.{◌≡◌, ◌<◌, ◌^◌, List, Option, length, slice_get};
ghost use Rattle.overlay_event.specs.declared.event.Event.{Event};
ghost use Rattle.board_turn.specs.declared.holding.Holding.{Holding};

use crate::holding::Holding;

/// A board of nodes. Contracts see its journal, the committed events in order; its holders, for each node the claim
/// that has it out, if it is out; and its base, the data that it was made from.
pub trait Board: Drop + Send {
    /// The type of the base, as contracts see it.
    type Base;

    /// The committed events, in order.
    ghost journal: { Self → List Event };

    /// For each node, the claim that has it out, if it is out.
    ghost holders: { Self → List (Option Holding) };

    /// The data that the board was made from.
    ghost base: { Self → Self.Base };

    /// The journal's length.
    fn count(&self) -> u64
        ensures { result ≡ length (journal self.now) };

    /// How many nodes there are.
    fn nodes(&self) -> u32
        ensures { result ≡ length (holders self.now) };

    /// The claim that has the node out, if it is out.
    fn holder(&self, node: u32) -> Option<Holding>
        requires { node < length (holders self.now) }
        ensures { slice_get (holders self.now) node ≡ Some result };
}
