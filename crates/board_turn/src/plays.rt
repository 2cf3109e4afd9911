//! The kinds of steps on the table, and what each does to the view of the seat that takes it. No value of these types
//! is made.
use crate::board::Board;
use crate::view::View;
use atomic_table::{Join, Play, Split};
use overlay_event::Event;
use std::marker::{Brand, PhantomData};

/// The event of one claim. Each claim picks it.
pub trait PicksEvent {
    ghost use Rattle.overlay_event.specs.declared.event.Event.{Event};

    ghost event: { Event };
}

impl PicksEvent for Brand {
    ghost use Rattle.overlay_event.specs.declared.event.Event.TheVariants.{Tick};

    ghost event = { Tick 0 };
}

/// The base of the turn. Each take picks it.
pub trait PicksBase<Y> {
    ghost use Rattle.std.specs.Prelude.{Option};

    ghost base: { Option Y };
}

impl<Y> PicksBase<Y> for Brand {
    ghost use Rattle.std.specs.Prelude.{None};

    ghost base = { None };
}

/// Tries to take the turn: word 0 from 0 to the seat's number. The seat then carries the slot with the board.
pub struct TakeTurn<E> {
    of: PhantomData<E>,
}

impl<B: Board, E: PicksBase<B::Base>> Play<Option<B>, View> for TakeTurn<E> {
    ghost use Rattle.board_turn.specs.Turns.{TriesTurn};

    ghost then = { TriesTurn B.journal B.holders B.base E.base };
}

/// Lays the slot down empty, after the board was taken out of it.
pub struct LayDown;

impl<B: Board> Play<Option<B>, View> for LayDown {
    ghost use Rattle.board_turn.specs.Turns.{LaysDown};

    ghost then = { LaysDown };
}

/// Picks the empty slot up, before the board is put into it.
pub struct PickUp;

impl<B: Board> Play<Option<B>, View> for PickUp {
    ghost use Rattle.board_turn.specs.Turns.{PicksUp};

    ghost then = { PicksUp };
}

/// Frees the turn: word 0 to 0. The slot goes home with the board.
pub struct FreeTurn;

impl<B: Board> Play<Option<B>, View> for FreeTurn {
    ghost use Rattle.board_turn.specs.Turns.{FreesTurn};

    ghost then = { FreesTurn };
}

/// Enters a claim into the log: word 0 is written with the owner's number again.
pub struct MarkClaim<E> {
    of: PhantomData<E>,
}

impl<B: Board, E: PicksEvent> Play<Option<B>, View> for MarkClaim<E> {
    ghost use Rattle.board_turn.specs.Turns.{ClaimsEvent};

    ghost then = { ClaimsEvent E.event };
}

/// Counts a commit: word 1 to the journal's new length.
pub struct CountCommit;

impl<B: Board> Play<Option<B>, View> for CountCommit {
    ghost use Rattle.board_turn.specs.Turns.{CommitsEvent};

    ghost then = { CommitsEvent };
}

/// Counts the entry of a claim or a commit: word 2 plus one.
pub struct CountEntry;

impl<B: Board> Play<Option<B>, View> for CountEntry {
    ghost use Rattle.board_turn.specs.Turns.{CountsEntry};

    ghost then = { CountsEntry };
}

/// Counts a seat that waits for the turn, or one that no longer does: word 3 changes, and no view.
pub struct CountWaiting;

impl<B: Board> Play<Option<B>, View> for CountWaiting {
    ghost use Rattle.board_turn.specs.Turns.{KeepsView};

    ghost then = { KeepsView };
}

/// Splits a seat off the first one.
pub struct SplitOff;

impl Split<View> for SplitOff {
    ghost use Rattle.board_turn.specs.Turns.{with_one_more, split_off};

    ghost left = { with_one_more };

    ghost right = { split_off };
}

/// Joins a seat that has neither the turn nor a node out.
pub struct JoinBack;

impl Join<View> for JoinBack {
    ghost use Rattle.board_turn.specs.Turns.{spent_view};

    ghost both = { λ v _. v };

    ghost spent = { spent_view };
}
