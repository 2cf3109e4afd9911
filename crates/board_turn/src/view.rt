//! The invariant of the table under a turn, and what a seat knows. No `LogEntry` and no `View` is ever made: both
//! occur in contracts and proofs alone.
use crate::board::Board;
use crate::holding::Holding;
use atomic_table::{Seat, Table, TableRule};
use overlay_event::Event;
use std::alloc::Global;
use std::collections::LinkedList;
use std::marker::PhantomData;
use std::snapshot::Snapshot;

/// The claim of an event by a seat, or its commit.
pub struct LogEntry {
    pub seat: u32,
    pub event: Event,
    pub claims: bool,
}

/// What a seat knows.
pub struct View {
    /// How many nodes the board has.
    pub nodes: u32,
    /// The seat's number.
    pub number: u32,
    /// Whether it has the turn.
    pub turn: bool,
    /// Whether it was joined away.
    pub spent: bool,
    /// How many seats were split off it.
    pub made: u32,
    /// 1 between an entry and its count.
    pub due: u64,
    /// Whether it carries the slot.
    pub lifts: bool,
    /// The log as it saw it last.
    pub seen: LinkedList<LogEntry>,
    /// The log as it knows it while it has the turn.
    pub known: LinkedList<LogEntry>,
    /// The claim whose node it has out, if it has one out.
    pub out: Option<Holding>,
}

/// The rule of the turn. Word 0 is the number of the seat that has the turn, or 0. Word 1 is the journal's length,
/// word 2 the number of log entries, and word 3 how many seats wait for the turn. Slot 0 has the board, while no seat
/// has the turn.
pub struct TurnRule<B> {
    of: PhantomData<B>,
}

impl<B: Board> TableRule<Option<B>, View, Snapshot<B>> for TurnRule<B> {
    ghost use Rattle.std.specs.Prelude.{length};
    ghost use Rattle.board_turn.specs.Turns.{TableInvariant, first_view};

    ghost holds = { λ key. TableInvariant B.journal B.holders B.base key.value };

    ghost first = { λ key. first_view (length (B.holders key.value)) };
}

/// The table under a turn.
pub type TurnTable<B> = Table<Option<B>, View, Snapshot<B>, TurnRule<B>, Global>;

/// A seat of that table.
pub type TableSeat<B> = Seat<Option<B>, View>;
