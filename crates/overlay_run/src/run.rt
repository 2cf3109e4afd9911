//! A run on several workers.

ghost use Rattle.std.specs.Prelude.{◌≡◌, ◌≤◌, All, IfOk, length};
ghost use Rattle.std.specs.Thread.{IsSync};
ghost use Rattle.overlay_core.specs.TreeReleases.{releases_view};
ghost use Rattle.board_turn.specs.Seats.{seat_number, split_count};
ghost use Rattle.overlay_run.specs.Boards.{IsWholeRun};
ghost use Rattle.overlay_run.specs.Seats.{IsIdle, plan_of};

use crate::board::{NetBoard, Ran};
use crate::worker::{WorkContext, work};
use board_turn::{Turn, TurnSeat};
use overlay_event::Gate;
use prefix_tree::PrefixTree;
use stat_plan::Plan;
use std::alloc::{AllocError, Global};
use std::sync::Wait;
use std::thread::{Threads, map_vec};

// A seat for each worker.
fn split_seats<'p, T: PrefixTree>(
    alloc: Global,
    turn: &Turn<NetBoard<'p, T>>,
    first: &mut TurnSeat,
    workers: u32,
) -> Result<Vec<TurnSeat>, AllocError>
    requires idle { IsIdle turn.now first.old }
    requires first { (seat_number first.old ≡ 1) × (split_count first.old ≡ 0) }
    requires within_limit { workers ≤ 32 }
    ensures first { IfOk result (λ seats. IsIdle turn.now first.new) }
    ensures seats { IfOk result (λ seats. All (λ s. IsIdle turn.now s) seats.items) }
    ensures count { IfOk result (λ seats. length seats.items ≡ workers) }
{
    let mut seats = Vec::new(alloc);
    for _ in 0..workers {
        let seat = turn.split(first);
        seats.push(seat)?;
    }
    Ok(seats)
}

// Works with the caller's own seat until the run is done or stopped, and ends the turn.
fn finish<'p, R: Wait, T: PrefixTree, G: Gate>(
    rt: &R,
    context: &WorkContext<'_, G>,
    turn: Turn<NetBoard<'p, T>>,
    seat: TurnSeat,
) -> Result<Ran<T>, AllocError>
    requires plan { plan_of turn ≡ context.now.plan.now }
    requires idle { IsIdle turn seat }
    ensures { IfOk result (λ ran. IsWholeRun context.now.plan.now ran.journal
        (releases_view T.tree ran.releases.items)) }
{
    let mut seat = seat;
    if work(rt, context, &turn, &mut seat).is_err() {
        return Err(AllocError);
    }
    let mut held = turn.take(rt, &mut seat);
    if !held.board().is_done() {
        // the run was stopped: a worker ran out of memory
        return Err(AllocError);
    }
    let board = turn.close(seat, held);
    Ok(board.into_ran())
}

/// Runs a plan on 1 to 32 workers, each in a thread of its own. All are joined; if a thread can't be made, its part is
/// done by the one that would have made it. Then the caller does what is left. Each event passes the gate once.
///
/// Fails only if memory runs out.
pub fn run_workers<R: Threads + Wait + Sync, T: PrefixTree, G: Gate>(
    rt: &R,
    alloc: Global,
    plan: &Plan,
    workers: u32,
    gate: &G,
) -> Result<Ran<T>, AllocError>
    requires workers { (1 ≤ workers) × (workers ≤ 32) }
    ensures { IfOk result (λ ran. IsWholeRun plan.now ran.journal (releases_view T.tree ran.releases.items)) }
{
    let board: NetBoard<T> = NetBoard::new(alloc, plan)?;
    let (turn, mut first) = Turn::new(alloc, board)?;
    let seats = split_seats(alloc, &turn, &mut first, workers)?;
    let shared = &turn;
    let job = |seat: TurnSeat| -> bool
        requires { IsSync R.row × IsSync G.row × (plan_of shared.now ≡ plan.now) × IsIdle shared.now seat }
    {
        let mut seat = seat;
        let context = WorkContext { alloc, plan, gate };
        work(rt, &context, shared, &mut seat).is_ok()
    };
    let ended = map_vec(rt, seats, &job)?;
    drop(ended);
    finish(rt, &WorkContext { alloc, plan, gate }, turn, first)
}
