//! The turn, its seats, and the board while a seat has it.
ghost use Rattle.std.specs.Prelude.{◌≡◌, ◌≢◌, ◌+◌, ◌^◌, ◌<◌, false, [], ◌∷◌, ◌++◌, length, Some, None, IfOk, slice_get, slice_set};
ghost use Rattle.board_turn.specs.Known.{known_of};

use crate::board::Board;
use crate::plays::{
    CountCommit, CountEntry, CountWaiting, FreeTurn, JoinBack, LayDown, MarkClaim, PickUp,
    PicksBase, PicksEvent, SplitOff, TakeTurn,
};
use crate::view::{TableSeat, TurnTable, View};
use atomic_table::{Badge, Table};
use overlay_event::Event;
use std::alloc::{AllocError, AllocFailed, Global};
use std::marker::{Brand, PhantomData};
use std::mem;
use std::snapshot::Snapshot;
use std::sync::Wait;
use std::time::Duration;

/// A board that its seats take one after another. Threads share it by reference, each with a seat of its own.
#[derive(Drop)]
pub struct Turn<B: Board> {
    table: TurnTable<B>,
    ghost counts: { (table.shared.table_id.words ≡ 4) × (table.shared.table_id.slots ≡ 1) },
}

/// A seat may take the turn. Contracts see its number, whether it has the turn, how many seats were split off it, the
/// journal that it saw last, and the claim whose node it has out.
#[derive(Drop)]
pub struct TurnSeat {
    number: u32,
    made: u32,
    badge: Badge<View>,
    ghost one_view: { badge.views ≡ known_of badge.views ∷ [] },
    ghost number_is: { number ≡ (known_of badge.views).number },
    ghost made_is: { made ≡ (known_of badge.views).made },
    ghost living: { (known_of badge.views).spent ≡ false },
    ghost settled: { (known_of badge.views).due ≡ 0 },
    ghost down: { (known_of badge.views).lifts ≡ false },
}

/// The board, while a seat has the turn. It has a snapshot, for contracts alone: the board as it was taken, or as it
/// was at the last claim or commit since.
#[derive(Drop)]
pub struct Held<B> {
    board: B,
    snapshot: Snapshot<B>,
}

impl<B: Board> Turn<B> {
    ghost use Rattle.std.specs.Prelude.{◌≡◌, ◌≢◌, ℕ, ◌+◌, ◌^◌, ◌<◌, true, false, [], ◌∷◌, ◌++◌, length, Some, None, IfOk, slice_get, slice_set};
    ghost use mathlib.Core.List.{IsPrefix};
    ghost use Rattle.board_turn.specs.Entries.{IsUnmoved, with_claim};
    ghost use Rattle.overlay_event.specs.Events.{event_node};
    ghost use Rattle.board_turn.specs.Turns.{IsKnownTo, after_claim, with_no_turn};
    ghost use Rattle.board_turn.specs.Known.{known_of};
    ghost use Rattle.board_turn.specs.TableSeats.{HasFetched, HasTriedTurn, IsLiving, IsOwner, KnowsCommit, SeatBecomes, SeatCommits, SeatStaysFree, known_by, seen_by};
    ghost use Rattle.board_turn.specs.Seats.{AreAllHome, CommitsOut, HasTaken, HasView, IsSeatOf, MatchesSnapshot, board_of, claimed_view, committed_view, has_turn, idle_view, seat_journal, seat_number, seat_out, seat_view, snapshot_of, split_count, turn_base};

    /// A turn over a board with an empty journal and all nodes at home, and its first seat, which has number 1.
    pub fn new(alloc: Global, board: B) -> Result<(Turn<B>, TurnSeat), AllocError>
        requires empty_journal { B.journal board ≡ [] }
        requires all_home { AreAllHome (B.holders board) }
        ensures seat_of_turn { IfOk result (λ t. IsSeatOf t.0 t.1) }
        ensures base { IfOk result (λ t. turn_base B.base t.0 ≡ B.base board) }
        ensures first_seat { IfOk result (λ t. HasView t.1 (idle_view 1 (B.journal board))) }
    {
        // for the proof: the number of nodes fits 32 bits
        let _nodes = board.nodes();
        let about = Snapshot::of(&board);
        let mut slots = Vec::new(alloc);
        if let Err(failed) = slots.push(Some(board)) {
            let AllocFailed { value } = failed;
            drop(value);
            return Err(AllocError);
        }
        match Table::new(alloc, &[0, 0, 0, 0], slots, &about) {
            Ok((table, table_seat)) => Ok((
                Turn { table },
                TurnSeat {
                    number: 1,
                    made: 0,
                    badge: table_seat.into_badge(),
                },
            )),
            Err(refused) => {
                drop(refused);
                Err(AllocError)
            }
        }
    }

    /// A new seat, split off the first one, with the next number. Takes no memory.
    pub fn split(&self, seat: &mut TurnSeat) -> TurnSeat
        requires seat_of_turn { IsSeatOf self.now seat.old }
        requires first_seat { seat_number seat.old ≡ 1 }
        requires within_limit { split_count seat.old < 4294967294 }
        ensures new_seat_of_turn { IsSeatOf self.now result }
        ensures new_seat { HasView result (idle_view (split_count seat.old + 2) (seat_journal seat.old)) }
        ensures seat_of_turn { IsSeatOf self.now seat.new }
        ensures seat { HasView seat.new (record (seat_view seat.old) { split = split_count seat.old + 1 }) }
    {
        let number = seat.made + 2;
        let mut table_seat = mem::replace(&mut seat.badge, Badge::blank()).into_seat();
        let new = self.table.shared.split_seat::<SplitOff>(&mut table_seat);
        seat.badge = table_seat.into_badge();
        seat.made += 1;
        TurnSeat {
            number,
            made: 0,
            badge: new.into_badge(),
        }
    }

    /// Takes back a seat, other than the first, that has neither the turn nor a node out. Takes no memory.
    pub fn join(&self, seat: &mut TurnSeat, other: TurnSeat)
        requires seat_of_turn { IsSeatOf self.now seat.old }
        requires other_of_turn { IsSeatOf self.now other }
        requires not_first { seat_number other ≢ 1 }
        requires has_no_turn { has_turn other ≡ false }
        requires nothing_out { seat_out other ≡ None }
        ensures seat_of_turn { IsSeatOf self.now seat.new }
        ensures seat { HasView seat.new (seat_view seat.old) }
    {
        let TurnSeat {
            number: _,
            made: _,
            badge,
        } = other;
        let mut table_seat = mem::replace(&mut seat.badge, Badge::blank()).into_seat();
        self.table
            .shared
            .join_seat::<JoinBack>(&mut table_seat, badge.into_seat());
        seat.badge = table_seat.into_badge();
    }

    // Tries to take the turn, and returns what word 0 was.
    fn try_turn<E: PicksBase<B::Base>>(&self, table_seat: &mut TableSeat<B>, number: u32) -> u64
        requires base { E.base ≡ Some (turn_base B.base self.now) }
        requires of_table { table_seat.old.table_id ≡ self.now.table.shared.table_id }
        requires living { IsLiving table_seat.old.me.0 number }
        ensures { HasTriedTurn B.journal B.holders B.base (turn_base B.base self.now) table_seat.old
            table_seat.new result }
    {
        self.table
            .shared
            .compare_exchange::<TakeTurn<E>>(table_seat, 0, 0, number as u64)
    }

    // Takes the turn once word 0 is 0, and parks on that word meanwhile.
    fn park_for_turn<E: PicksBase<B::Base>, R: Wait>(
        &self,
        rt: &R,
        table_seat: &mut TableSeat<B>,
        number: u32,
    )
        requires base { E.base ≡ Some (turn_base B.base self.now) }
        requires of_table { table_seat.old.table_id ≡ self.now.table.shared.table_id }
        requires living { IsLiving table_seat.old.me.0 number }
        ensures { HasTriedTurn B.journal B.holders B.base (turn_base B.base self.now) table_seat.old table_seat.new 0 }
    {
        for _ in rt.forever() {
            let owner = self.try_turn::<E>(table_seat, number);
            if owner == 0 {
                return;
            }
            self.table.shared.park(rt, 0, (owner % (1 << 32)) as u32);
        }
        unreachable!()
    }

    // Takes the turn, and waits for it where another seat has it. A seat that waits is counted before it parks, so that
    // one that frees the turn finds it there.
    fn wait_turn<E: PicksBase<B::Base>, R: Wait>(
        &self,
        rt: &R,
        table_seat: &mut TableSeat<B>,
        number: u32,
    )
        requires base { E.base ≡ Some (turn_base B.base self.now) }
        requires of_table { table_seat.old.table_id ≡ self.now.table.shared.table_id }
        requires living { IsLiving table_seat.old.me.0 number }
        ensures { HasTriedTurn B.journal B.holders B.base (turn_base B.base self.now) table_seat.old table_seat.new 0 }
    {
        if self.try_turn::<E>(table_seat, number) == 0 {
            return;
        }
        self.table
            .shared
            .fetch_add::<CountWaiting>(table_seat, 3, 1);
        self.park_for_turn::<E, R>(rt, table_seat, number);
        self.table
            .shared
            .fetch_sub::<CountWaiting>(table_seat, 3, 1);
    }

    // Waits for the turn, and takes the board out of its slot.
    fn fetch<R: Wait>(&self, rt: &R, table_seat: &mut TableSeat<B>, number: u32) -> B
        requires of_table { table_seat.old.table_id ≡ self.now.table.shared.table_id }
        requires no_slots { table_seat.old.me.1 ≡ [] }
        requires living { IsLiving table_seat.old.me.0 number }
        ensures table_seat { SeatStaysFree table_seat.old table_seat.new }
        ensures fetched { HasFetched B.journal B.holders B.base (turn_base B.base self.now) table_seat.old.me.0
            table_seat.new.me.0 result }
    {
        self.wait_turn::<Brand, R>(rt, table_seat, number);
        let board = self.lift(table_seat);
        self.table.shared.load::<LayDown>(table_seat, 0);
        board
    }

    // Puts the board into its slot, frees the turn, and wakes a seat if one waits.
    fn put(&self, table_seat: &mut TableSeat<B>, board: B)
        requires of_table { table_seat.old.table_id ≡ self.now.table.shared.table_id }
        requires no_slots { table_seat.old.me.1 ≡ [] }
        requires owner { IsOwner table_seat.old.me.0 }
        requires laid_down { table_seat.old.me.0.lifts ≡ false }
        requires known { IsKnownTo B.journal B.holders B.base (Some (turn_base B.base self.now)) board
            table_seat.old.me.0 }
        ensures { SeatBecomes table_seat.old table_seat.new (with_no_turn table_seat.old.me.0, []) }
    {
        self.table.shared.load::<PickUp>(table_seat, 0);
        self.lay(table_seat, board);
        self.table.shared.store::<FreeTurn>(table_seat, 0, 0);
        if self.table.shared.peek(3) != 0 {
            self.table.shared.wake_one(0);
        }
    }

    /// Waits for the turn, and takes the board. The journal that the seat saw last is a prefix of the board's. A node
    /// that the seat has out is still out with it, and no event of that node was committed since the claim.
    pub fn take<R: Wait>(&self, rt: &R, seat: &mut TurnSeat) -> Held<B>
        requires seat_of_turn { IsSeatOf self.now seat.old }
        requires has_no_turn { has_turn seat.old ≡ false }
        ensures seat_of_turn { IsSeatOf self.now seat.new }
        ensures taken { HasTaken B.journal B.holders B.base self.now seat.new result }
        ensures seat { HasView seat.new (record (seat_view seat.old) { turn = true }) }
        ensures snapshot { MatchesSnapshot B.journal B.holders result }
        ensures prefix { IsPrefix (seat_journal seat.old) (B.journal (board_of result)) }
        ensures still_out { (h : _) → seat_out seat.old ≡ Some h
            → slice_get (B.holders (board_of result)) (event_node h.event) ≡ Some (Some h) }
        ensures unmoved { (h : _) → seat_out seat.old ≡ Some h → IsUnmoved (B.journal (board_of result)) h }
    {
        let mut table_seat = mem::replace(&mut seat.badge, Badge::blank()).into_seat();
        let board = self.fetch(rt, &mut table_seat, seat.number);
        seat.badge = table_seat.into_badge();
        let snapshot = Snapshot::of(&board);
        Held { board, snapshot }
    }

    // Takes the board out of its slot.
    fn lift(&self, table_seat: &mut TableSeat<B>) -> B
        requires of_table { table_seat.old.table_id ≡ self.now.table.shared.table_id }
        requires full_slot { (b : _) × (table_seat.old.me.1 ≡ (0, Some b) ∷ []) }
        ensures table_seat { SeatBecomes table_seat.old table_seat.new (table_seat.old.me.0, (0, None) ∷ []) }
        ensures board { table_seat.old.me.1 ≡ (0, Some result) ∷ [] }
    {
        match self.table.shared.exchange(table_seat, 0, None) {
            Some(board) => board,
            None => unreachable!(),
        }
    }

    // Lays the board into its slot.
    fn lay(&self, table_seat: &mut TableSeat<B>, board: B)
        requires of_table { table_seat.old.table_id ≡ self.now.table.shared.table_id }
        requires empty_slot { table_seat.old.me.1 ≡ (0, None) ∷ [] }
        ensures { SeatBecomes table_seat.old table_seat.new (table_seat.old.me.0, (0, Some board) ∷ []) }
    {
        match self.table.shared.exchange(table_seat, 0, Some(board)) {
            Some(_) => unreachable!(),
            None => {}
        }
    }

    /// Takes the node of an event out for this seat. The board must already name the seat as that node's holder, and be
    /// otherwise unchanged.
    pub fn claim(&self, seat: &mut TurnSeat, held: &mut Held<B>, event: Event)
        requires seat_of_turn { IsSeatOf self.now seat.old }
        requires taken { HasTaken B.journal B.holders B.base self.now seat.old held.old }
        requires nothing_out { seat_out seat.old ≡ None }
        requires within_limit { length (B.journal (board_of held.old)) < 2 ^ 62 }
        requires node_home { slice_get (B.holders (snapshot_of held.old)) (event_node event) ≡ Some None }
        requires same_journal { B.journal (board_of held.old) ≡ B.journal (snapshot_of held.old) }
        requires claimed { B.holders (board_of held.old)
            ≡ with_claim (B.holders (snapshot_of held.old)) (seat_number seat.old) event
            (B.journal (board_of held.old)) }
        ensures seat_of_turn { IsSeatOf self.now seat.new }
        ensures taken { HasTaken B.journal B.holders B.base self.now seat.new held.new }
        ensures seat { HasView seat.new (claimed_view seat.old event (B.journal (board_of held.old))) }
        ensures board { board_of held.new ≡ board_of held.old }
        ensures snapshot { snapshot_of held.new ≡ board_of held.old }
    {
        let mut table_seat = mem::replace(&mut seat.badge, Badge::blank()).into_seat();
        self.mark::<Brand>(&mut table_seat, seat.number, event);
        seat.badge = table_seat.into_badge();
        held.snapshot = Snapshot::of(&held.board);
    }

    // Notes the claim in the seat's view, and counts the entry.
    fn mark<E: PicksEvent>(&self, table_seat: &mut TableSeat<B>, number: u32, event: Event)
        requires event { event ≡ E.event }
        requires of_table { table_seat.old.table_id ≡ self.now.table.shared.table_id }
        requires owner { IsOwner table_seat.old.me.0 }
        requires number { table_seat.old.me.0.number ≡ number }
        requires nothing_out { table_seat.old.me.0.out ≡ None }
        requires within_limit { length (known_by table_seat.old).journal < 2 ^ 62 }
        requires node_home { slice_get (known_by table_seat.old).holders (event_node event) ≡ Some None }
        ensures table_seat { SeatBecomes table_seat.old table_seat.new
            (after_claim table_seat.old.me.0 event, table_seat.old.me.1) }
        ensures seen { (seen_by table_seat.new).journal ≡ (known_by table_seat.old).journal }
        ensures journal { (known_by table_seat.new).journal ≡ (known_by table_seat.old).journal }
        ensures claimed { (known_by table_seat.new).holders
            ≡ with_claim (known_by table_seat.old).holders number event (known_by table_seat.old).journal }
    {
        // for the proof: the claim is of this event
        let _ = event;
        self.table
            .shared
            .store::<MarkClaim<E>>(table_seat, 0, number as u64);
        self.table.shared.fetch_add::<CountEntry>(table_seat, 2, 1);
    }

    /// Brings the seat's node home, with its event. The board's journal must already end with the event, the node must
    /// be at home, and the board be otherwise unchanged.
    pub fn commit(&self, seat: &mut TurnSeat, held: &mut Held<B>)
        requires seat_of_turn { IsSeatOf self.now seat.old }
        requires taken { HasTaken B.journal B.holders B.base self.now seat.old held.old }
        requires committed { CommitsOut B.journal B.holders held.old (seat_out seat.old) }
        ensures seat_of_turn { IsSeatOf self.now seat.new }
        ensures taken { HasTaken B.journal B.holders B.base self.now seat.new held.new }
        ensures seat { HasView seat.new (committed_view seat.old (B.journal (board_of held.old))) }
        ensures board { board_of held.new ≡ board_of held.old }
        ensures snapshot { snapshot_of held.new ≡ board_of held.old }
    {
        let mut table_seat = mem::replace(&mut seat.badge, Badge::blank()).into_seat();
        self.bring(&mut table_seat, held.board.count());
        seat.badge = table_seat.into_badge();
        held.snapshot = Snapshot::of(&held.board);
    }

    // Counts the commit, and then the entry.
    fn bring(&self, table_seat: &mut TableSeat<B>, count: u64)
        requires of_table { table_seat.old.table_id ≡ self.now.table.shared.table_id }
        requires owner { IsOwner table_seat.old.me.0 }
        requires count { count ≡ length (known_by table_seat.old).journal + 1 }
        requires something_out { (h : _) × (table_seat.old.me.0.out ≡ Some h) }
        ensures table_seat { SeatCommits table_seat.old table_seat.new }
        ensures known { KnowsCommit table_seat.old table_seat.new }
    {
        self.table.shared.store::<CountCommit>(table_seat, 1, count);
        self.table.shared.fetch_add::<CountEntry>(table_seat, 2, 1);
    }

    /// Gives the board and the turn back, and wakes a seat if one waits for it. Takes no memory, and does not wait.
    pub fn give(&self, seat: &mut TurnSeat, held: Held<B>)
        requires seat_of_turn { IsSeatOf self.now seat.old }
        requires taken { HasTaken B.journal B.holders B.base self.now seat.old held }
        requires snapshot { MatchesSnapshot B.journal B.holders held }
        ensures seat_of_turn { IsSeatOf self.now seat.new }
        ensures seat { HasView seat.new (record (seat_view seat.old) { turn = false }) }
    {
        let Held { board, snapshot } = held;
        drop(snapshot);
        let mut table_seat = mem::replace(&mut seat.badge, Badge::blank()).into_seat();
        self.put(&mut table_seat, board);
        seat.badge = table_seat.into_badge();
    }

    /// Sleeps while `count` events were committed, for at most ten milliseconds. It may also return sooner for no
    /// reason, and says nothing of the board.
    pub fn wait_for_commit<R: Wait>(&self, rt: &R, count: u64) {
        let low_half = (count % (1 << 32)) as u32;
        self.table
            .shared
            .park_timeout(rt, 1, low_half, Duration::from_millis(10));
    }

    /// Wakes a thread that sleeps in [`wait_for_commit`](Turn::wait_for_commit), if there is one.
    pub fn wake_one(&self) {
        self.table.shared.wake_one(1);
    }

    /// Wakes each thread that sleeps in [`wait_for_commit`](Turn::wait_for_commit).
    pub fn wake_all(&self) {
        self.table.shared.wake_all(1);
    }

    /// Ends the turn, and returns the held board. Seats that were not joined can do nothing more.
    pub fn close(self, seat: TurnSeat, held: Held<B>) -> B
        requires seat_of_turn { IsSeatOf self seat }
        requires taken { HasTaken B.journal B.holders B.base self seat held }
        requires snapshot { MatchesSnapshot B.journal B.holders held }
        ensures { result ≡ board_of held }
    {
        let Turn { table } = self;
        let TurnSeat {
            number: _,
            made: _,
            badge,
        } = seat;
        let mut closed = table.close_with(badge.into_seat());
        let counted = closed.word(1);
        drop(closed.take(0));
        closed.free();
        let Held { board, snapshot } = held;
        drop(snapshot);
        let is_count = counted == board.count();
        prove!(is_count);
        board
    }
}

impl TurnSeat {
    ghost use Rattle.std.specs.Prelude.{◌≡◌};
    ghost use Rattle.board_turn.specs.Seats.{seat_number};

    /// The seat's number, from 1.
    pub fn number(&self) -> u32
        ensures { result ≡ seat_number self.now }
    {
        self.number
    }
}

impl<B> Held<B> {
    ghost use Rattle.std.specs.Prelude.{◌≡◌};
    ghost use Rattle.std.specs.Borrow.{sem};
    ghost use Rattle.board_turn.specs.Lending.{LendsBoard};
    ghost use Rattle.board_turn.specs.Seats.{board_of};

    /// The board, to be read and changed.
    pub fn board(&mut self) -> &mut B
        ensures* writes_back { sem 𝓛 (LendsBoard B.row self.entry result) }
        ensures value { result.now ≡ board_of self.old }
    {
        &mut self.board
    }
}
