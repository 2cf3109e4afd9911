//! What a worker does.

ghost use Rattle.std.specs.Prelude.{◌≡◌, true, false, None, IfErr, IfOk, OnOk};
ghost use Rattle.board_turn.specs.Seats.{HasView, IsSeatOf, board_of, seat_number, seat_out, seat_view};
ghost use Rattle.overlay_net.specs.Claims.{WasWorked};
ghost use Rattle.overlay_run.specs.Boards.{HasEnded};
ghost use Rattle.overlay_run.specs.Given.{given_board};
ghost use Rattle.overlay_run.specs.Next.{IsNext};
ghost use Rattle.overlay_run.specs.Seats.{HoldsBoard, IsAtRest, IsAway, IsIdle, plan_of};

use crate::board::NetBoard;
use crate::given::{Given, give};
use board_turn::{Board, Held, Turn, TurnSeat};
use overlay_event::Gate;
use overlay_net::Claimed;
use prefix_tree::PrefixTree;
use stat_plan::Plan;
use std::alloc::Global;
use std::sync::Wait;

/// What all workers of a run work with, beside the turn.
#[derive(Drop)]
pub struct WorkContext<'a, G: Gate> {
    /// For what an event makes.
    pub alloc: Global,
    /// The plan of the run.
    pub plan: &'a Plan,
    /// What each event passes between its claim and its commit.
    pub gate: &'a G,
}

/// What a worker finds when it has the turn.
#[derive(Drop)]
pub enum Next<'p, T: PrefixTree> {
    /// An event, whose node the seat has out now.
    Claims(Claimed<T>),
    /// No event may be claimed before another seat brings its node home. So many events were committed until now.
    Waits(u64),
    /// The run is done or stopped, as this board says, which was given back.
    Ends(Given<NetBoard<'p, T>>),
}

// Gives the board back, and wakes a worker that waits, if there is an event for it.
fn give_and_wake<'p, T: PrefixTree>(
    turn: &Turn<NetBoard<'p, T>>,
    seat: &mut TurnSeat,
    mut held: Held<NetBoard<'p, T>>,
)
    requires holds { HoldsBoard turn.now seat.old held }
    ensures seat_of_turn { IsSeatOf turn.now seat.new }
    ensures seat { HasView seat.new (record (seat_view seat.old) { turn = false }) }
{
    let wakes = held.board().wakes_one();
    turn.give(seat, held);
    if wakes {
        turn.wake_one();
    }
}

// Gives the board of a run that is done or stopped back, and wakes all workers that wait.
fn give_last<'p, T: PrefixTree>(
    turn: &Turn<NetBoard<'p, T>>,
    seat: &mut TurnSeat,
    mut held: Held<NetBoard<'p, T>>,
) -> Given<NetBoard<'p, T>>
    requires holds { HoldsBoard turn.now seat.old held }
    ensures seat_of_turn { IsSeatOf turn.now seat.new }
    ensures seat { HasView seat.new (record (seat_view seat.old) { turn = false }) }
    ensures board { given_board result ≡ board_of held.entry }
{
    let wakes = held.board().has_waiting();
    let given = give(turn, seat, held);
    if wakes {
        turn.wake_all();
    }
    given
}

// What a seat does that has the turn and finds no event: it ends where the run is done, and else it waits.
fn wait_or_end<'p, T: PrefixTree>(
    turn: &Turn<NetBoard<'p, T>>,
    seat: &mut TurnSeat,
    mut held: Held<NetBoard<'p, T>>,
) -> Next<'p, T>
    requires holds { HoldsBoard turn.now seat.old held }
    requires nothing_out { seat_out seat.old ≡ None }
    ensures number { seat_number seat.new ≡ seat_number seat.old }
    ensures found { IsNext turn.now seat.new result }
{
    let board = held.board();
    if board.is_done() {
        return Next::Ends(give_last(turn, seat, held));
    }
    board.begin_wait();
    let count = board.count();
    turn.give(seat, held);
    Next::Waits(count)
}

// Claims an event for a seat that has the turn, if one may be claimed, and gives the turn back.
fn find_next<'p, T: PrefixTree>(
    turn: &Turn<NetBoard<'p, T>>,
    seat: &mut TurnSeat,
    mut held: Held<NetBoard<'p, T>>,
) -> Next<'p, T>
    requires holds { HoldsBoard turn.now seat.old held }
    requires nothing_out { seat_out seat.old ≡ None }
    ensures number { seat_number seat.new ≡ seat_number seat.old }
    ensures found { IsNext turn.now seat.new result }
{
    let number = seat.number();
    let board = held.board();
    if board.is_stopped() {
        return Next::Ends(give_last(turn, seat, held));
    }
    let Some(claim) = board.claim(number) else {
        return wait_or_end(turn, seat, held);
    };
    board.invariant();
    let event = claim.event();
    turn.claim(seat, &mut held, event);
    give_and_wake(turn, seat, held);
    Next::Claims(claim)
}

// Takes the turn, and claims an event if one may be claimed.
fn claim_next<'p, R: Wait, T: PrefixTree>(
    rt: &R,
    turn: &Turn<NetBoard<'p, T>>,
    seat: &mut TurnSeat,
) -> Next<'p, T>
    requires idle { IsIdle turn.now seat.old }
    ensures number { seat_number seat.new ≡ seat_number seat.old }
    ensures found { IsNext turn.now seat.new result }
{
    let held = turn.take(rt, seat);
    find_next(turn, seat, held)
}

// Waits until more than `count` events were committed, or a little while, and takes the turn again.
fn wait_for_next<'p, R: Wait, T: PrefixTree>(
    rt: &R,
    turn: &Turn<NetBoard<'p, T>>,
    seat: &mut TurnSeat,
    count: u64,
) -> Next<'p, T>
    requires idle { IsIdle turn.now seat.old }
    ensures number { seat_number seat.new ≡ seat_number seat.old }
    ensures found { IsNext turn.now seat.new result }
{
    turn.wait_for_commit(rt, count);
    let mut held = turn.take(rt, seat);
    held.board().end_wait();
    find_next(turn, seat, held)
}

// Takes the turn and stops the run. Returns the stopped board that it gave back.
fn stop_run<'p, R: Wait, T: PrefixTree>(
    rt: &R,
    turn: &Turn<NetBoard<'p, T>>,
    seat: &mut TurnSeat,
) -> Given<NetBoard<'p, T>>
    requires at_rest { IsAtRest turn.now seat.old }
    ensures at_rest { IsAtRest turn.now seat.new }
    ensures number { seat_number seat.new ≡ seat_number seat.old }
    ensures stopped { (given_board result).stopped ≡ true }
{
    let mut held = turn.take(rt, seat);
    held.board().stop();
    give_last(turn, seat, held)
}

// Takes the turn, commits a claim that was worked on, and claims the next event if one may be claimed. If memory runs
// out, it stops the run, and returns the stopped board that it gave back.
fn commit_claim<'p, R: Wait, T: PrefixTree>(
    rt: &R,
    alloc: Global,
    turn: &Turn<NetBoard<'p, T>>,
    seat: &mut TurnSeat,
    claim: Claimed<T>,
) -> Result<Next<'p, T>, Given<NetBoard<'p, T>>>
    requires away { IsAway turn.now seat.old claim }
    requires worked { WasWorked (plan_of turn.now) claim }
    ensures number { seat_number seat.new ≡ seat_number seat.old }
    ensures found { IfOk result (IsNext turn.now seat.new) }
    ensures stopped { IfErr result (λ given. (given_board given).stopped ≡ true) }
{
    let mut held = turn.take(rt, seat);
    let number = seat.number();
    let board = held.board();
    board.invariant();
    match board.commit(alloc, number, claim) {
        Ok(()) => {
            turn.commit(seat, &mut held);
            Ok(find_next(turn, seat, held))
        }
        Err(_) => {
            board.stop();
            Err(give_last(turn, seat, held))
        }
    }
}

// Lets a claim pass the gate, works on it, commits it, and claims the next event if one may be claimed. If memory runs
// out, it stops the run, and returns the stopped board that it gave back.
fn do_claim<'p, R: Wait, T: PrefixTree, G: Gate>(
    rt: &R,
    context: &WorkContext<'_, G>,
    turn: &Turn<NetBoard<'p, T>>,
    seat: &mut TurnSeat,
    claim: Claimed<T>,
) -> Result<Next<'p, T>, Given<NetBoard<'p, T>>>
    requires plan { plan_of turn.now ≡ context.now.plan.now }
    requires fresh { claim.left ≡ None }
    requires away { IsAway turn.now seat.old claim }
    ensures number { seat_number seat.new ≡ seat_number seat.old }
    ensures found { IfOk result (IsNext turn.now seat.new) }
    ensures stopped { IfErr result (λ given. (given_board given).stopped ≡ true) }
{
    let event = claim.event();
    context.gate.pass(&event);
    match claim.work(context.alloc, context.plan) {
        Ok(claim) => commit_claim(rt, context.alloc, turn, seat, claim),
        Err(_) => Err(stop_run(rt, turn, seat)),
    }
}

/// Does events until the run is done or stopped, and returns the board that it gave back then. If memory runs out, it
/// stops the run, and returns the stopped board that it gave back; the seat may then have a node out.
pub fn work<'p, R: Wait, T: PrefixTree, G: Gate>(
    rt: &R,
    context: &WorkContext<'_, G>,
    turn: &Turn<NetBoard<'p, T>>,
    seat: &mut TurnSeat,
) -> Result<Given<NetBoard<'p, T>>, Given<NetBoard<'p, T>>>
    requires plan { plan_of turn.now ≡ context.now.plan.now }
    requires idle { IsIdle turn.now seat.old }
    ensures number { seat_number seat.new ≡ seat_number seat.old }
    ensures idle { OnOk result (IsIdle turn.now seat.new) }
    ensures ended { IfOk result (λ given. HasEnded (given_board given)) }
    ensures stopped { IfErr result (λ given. (given_board given).stopped ≡ true) }
{
    let mut next = claim_next(rt, turn, seat);
    for _ in rt.forever() {
        next = match next {
            Next::Ends(given) => return Ok(given),
            Next::Waits(count) => wait_for_next(rt, turn, seat, count),
            Next::Claims(claim) => match do_claim(rt, context, turn, seat, claim) {
                Ok(found) => found,
                Err(given) => return Err(given),
            },
        };
    }
    unreachable!()
}
