//! A small board, and seats that claim and commit.
ghost use Rattle.std.specs.Prelude.{◌≡◌, ◌<◌, ◌∷◌, [], false, None, MatchBool};
ghost use Rattle.board_turn.specs.Seats.{IsSeatOf, has_turn, seat_out};
ghost use Rattle.board_turn.specs.Ticks.{HasTickOut, IsIdle, StaysSeat};
ghost use Rattle.std.specs.Thread.{IsSync};

use crate::{Board, Holding, Turn, TurnSeat};
use overlay_event::Event;
use std::alloc::{AllocError, Global};
use std::process::Abort;
use std::sync::Wait;
use std::test::*;
use std::thread::{Threads, join};

#[derive(Drop)]
struct Small {
    events: Vec<Event>,
    holders: [Option<Holding>; 4],
}

impl Board for Small {
    type Base = ();

    ghost journal = { λ b. b.events.items };

    ghost holders = { λ b. b.holders };

    ghost base = { λ _. tt };

    fn count(&self) -> u64 {
        self.events.len() as u64
    }

    fn nodes(&self) -> u32 {
        4
    }

    fn holder(&self, node: u32) -> Option<Holding> {
        self.holders[node as usize]
    }
}

fn make_small(alloc: Global) -> Small
    ensures { (result.events.items ≡ []) × (result.holders ≡ None ∷ None ∷ None ∷ None ∷ []) }
{
    Small {
        events: Vec::new(alloc),
        holders: [None; 4],
    }
}

// Claims a tick of the node, if the node is at home.
fn claim_tick<R: Wait>(rt: &R, turn: &Turn<Small>, seat: &mut TurnSeat, node: u32) -> bool
    requires idle { IsIdle turn.now seat.old }
    ensures seat { StaysSeat turn.now seat.old seat.new }
    ensures out { MatchBool result (HasTickOut seat.new node) (seat_out seat.new ≡ None) }
{
    let mut held = turn.take(rt, seat);
    let since = held.board().count();
    if node >= 4 || since >= 1 << 62 || held.board().holder(node).is_some() {
        turn.give(seat, held);
        return false;
    }
    let event = Event::Tick { node };
    let seat_number = seat.number();
    held.board().holders[node as usize] = Some(Holding {
        seat: seat_number,
        event,
        since,
    });
    turn.claim(seat, &mut held, event);
    turn.give(seat, held);
    true
}

// Brings the seat's node home. Returns false where memory has run out.
fn commit_tick<R: Wait>(rt: &R, turn: &Turn<Small>, seat: &mut TurnSeat, node: u32) -> bool
    requires seat { IsSeatOf turn.now seat.old × (has_turn seat.old ≡ false) × (node < 4) }
    requires out { HasTickOut seat.old node }
    ensures seat { StaysSeat turn.now seat.old seat.new }
    ensures out { MatchBool result (seat_out seat.new ≡ None) (seat_out seat.new ≡ seat_out seat.old) }
{
    let mut held = turn.take(rt, seat);
    if held.board().events.push(Event::Tick { node }).is_err() {
        turn.give(seat, held);
        return false;
    }
    held.board().holders[node as usize] = None;
    turn.commit(seat, &mut held);
    turn.give(seat, held);
    true
}

// Claims and commits ticks of one node.
fn tick_often<R: Wait>(
    rt: &R,
    turn: &Turn<Small>,
    mut seat: TurnSeat,
    node: u32,
    times: u32,
) -> (TurnSeat, u32)
    requires idle { IsIdle turn.now seat }
    requires node { node < 4 }
    ensures { StaysSeat turn.now seat result.0 }
{
    let mut done = 0;
    for _i in 0..times {
        if !claim_tick(rt, turn, &mut seat, node) {
            break;
        }
        if !commit_tick(rt, turn, &mut seat, node) {
            break;
        }
        done += 1;
    }
    (seat, done)
}

fn two_threads<R: Threads + Wait + Abort + Sync>(rt: &R, alloc: Global) -> Result<(), AllocError> {
    let (turn, mut one) = Turn::new(alloc, make_small(alloc))?;
    let two = turn.split(&mut one);
    let shared = &turn;
    let ((one, a), (two, b)) = join(
        rt,
        || -> (TurnSeat, u32)
            requires { IsSync R.row × IsIdle shared.now one }
            ensures { StaysSeat shared.entry.now one result.0 }
        { tick_often(rt, shared, one, 1, 100) },
        || -> (TurnSeat, u32)
            requires { IsSync R.row × IsIdle shared.now two }
            ensures { StaysSeat shared.entry.now two result.0 }
        { tick_often(rt, shared, two, 2, 100) },
    );
    let mut one = one;
    assert!(rt; a == 100 && b == 100);
    drop(two);
    let held = turn.take(rt, &mut one);
    let board = turn.close(one, held);
    assert!(rt; board.count() == 200);
    Ok(())
}

#[test]
fn two_threads_tick(rt: HostRuntime) -> Result<(), Fail> {
    two_threads(&rt, rt.alloc())?;
    Ok(())
}

// Seat 2 finds what seat 1 has out, and works beside it.
fn two_seats<R: Wait + Abort>(rt: &R, alloc: Global) -> Result<(), AllocError> {
    let (turn, mut one) = Turn::new(alloc, make_small(alloc))?;
    let mut two = turn.split(&mut one);
    assert!(rt; one.number() == 1 && two.number() == 2);
    if !claim_tick(rt, &turn, &mut one, 1) {
        return Err(AllocError);
    }
    let mut held = turn.take(rt, &mut two);
    let found = held.board().holder(1);
    turn.give(&mut two, held);
    assert!(rt;
        matches!(
            found,
            Some(Holding {
                seat: 1,
                event: Event::Tick { node: 1 },
                since: 0
            })
        )
    );
    if !claim_tick(rt, &turn, &mut two, 2) || !commit_tick(rt, &turn, &mut two, 2) {
        return Err(AllocError);
    }
    if !commit_tick(rt, &turn, &mut one, 1) {
        return Err(AllocError);
    }
    turn.join(&mut one, two);
    let held = turn.take(rt, &mut one);
    let board = turn.close(one, held);
    assert!(rt; board.count() == 2 && board.holder(1).is_none() && board.holder(2).is_none());
    Ok(())
}

#[test]
fn two_seats_in_turn(rt: HostRuntime) -> Result<(), Fail> {
    two_seats(&rt, rt.alloc())?;
    Ok(())
}

// A board that borrows its base.
#[derive(Drop)]
struct Lent<'p> {
    base: &'p Vec<u32>,
    small: Small,
}

impl<'p> Board for Lent<'p> {
    type Base = Vec<u32>;

    ghost journal = { λ b. b.small.events.items };

    ghost holders = { λ b. b.small.holders };

    ghost base = { λ b. b.base.now };

    fn count(&self) -> u64 {
        self.small.events.len() as u64
    }

    fn nodes(&self) -> u32 {
        4
    }

    fn holder(&self, node: u32) -> Option<Holding> {
        self.small.holders[node as usize]
    }
}

fn claim_lent<'p, R: Wait>(rt: &R, turn: &Turn<Lent<'p>>, seat: &mut TurnSeat, node: u32) -> bool
    requires idle { IsIdle turn.now seat.old }
    ensures seat { StaysSeat turn.now seat.old seat.new }
    ensures out { MatchBool result (HasTickOut seat.new node) (seat_out seat.new ≡ None) }
{
    let mut held = turn.take(rt, seat);
    let since = held.board().count();
    if node >= 4 || since >= 1 << 62 || held.board().holder(node).is_some() {
        turn.give(seat, held);
        return false;
    }
    let event = Event::Tick { node };
    let seat_number = seat.number();
    held.board().small.holders[node as usize] = Some(Holding {
        seat: seat_number,
        event,
        since,
    });
    turn.claim(seat, &mut held, event);
    turn.give(seat, held);
    true
}

fn claim_lent_once<'p, R: Wait>(
    rt: &R,
    turn: &Turn<Lent<'p>>,
    mut seat: TurnSeat,
    node: u32,
) -> (TurnSeat, bool)
    requires { IsIdle turn.now seat }
    ensures { IsSeatOf turn.now result.0 × (has_turn result.0 ≡ false) }
{
    let claimed = claim_lent(rt, turn, &mut seat, node);
    (seat, claimed)
}

fn lent_turn<R: Threads + Wait + Abort + Sync>(
    rt: &R,
    alloc: Global,
    base: &Vec<u32>,
) -> Result<(), AllocError> {
    let (turn, mut one) = Turn::new(
        alloc,
        Lent {
            base,
            small: make_small(alloc),
        },
    )?;
    let two = turn.split(&mut one);
    let three = turn.split(&mut one);
    let shared = &turn;
    let (a, b) = join(
        rt,
        || -> bool
            requires { IsSync R.row × IsIdle shared.now two }
        { claim_lent_once(rt, shared, two, 1).1 },
        || -> bool
            requires { IsSync R.row × IsIdle shared.now three }
        { claim_lent_once(rt, shared, three, 2).1 },
    );
    assert!(rt; a && b);
    let held = turn.take(rt, &mut one);
    let board = turn.close(one, held);
    assert!(rt; board.count() == 0 && board.base.len() == 0);
    Ok(())
}

#[test]
fn a_board_may_borrow(rt: HostRuntime) -> Result<(), Fail> {
    let base = Vec::new(rt.alloc());
    lent_turn(&rt, rt.alloc(), &base)?;
    Ok(())
}
