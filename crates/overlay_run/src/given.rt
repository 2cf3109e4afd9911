//! The board of a turn, as a seat gave it back.

ghost use Rattle.std.specs.Prelude.{◌≡◌, false};
ghost use Rattle.board_turn.specs.Seats.{HasTaken, HasView, IsSeatOf, MatchesSnapshot, board_of, seat_view};
ghost use Rattle.overlay_run.specs.Given.{given_board};

use board_turn::{Board, Held, Turn, TurnSeat};
use std::snapshot::Snapshot;

/// For contracts alone: a board that a seat gave back, as it was then. Nothing but [`give`] makes one.
#[derive(Drop)]
pub struct Given<B> {
    board: Snapshot<B>,
}

/// Gives the board and the turn back, and returns which board it was.
pub fn give<B: Board>(turn: &Turn<B>, seat: &mut TurnSeat, mut held: Held<B>) -> Given<B>
    requires seat_of_turn { IsSeatOf turn.now seat.old }
    requires taken { HasTaken B.journal B.holders B.base turn.now seat.old held }
    requires snapshot { MatchesSnapshot B.journal B.holders held }
    ensures seat_of_turn { IsSeatOf turn.now seat.new }
    ensures seat { HasView seat.new (record (seat_view seat.old) { turn = false }) }
    ensures board { given_board result ≡ board_of held }
{
    let board = Snapshot::of(held.board());
    turn.give(seat, held);
    Given { board }
}
