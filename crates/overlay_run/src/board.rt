//! The board: the net, the journal, and who has each node out.

ghost use Rattle.std.specs.Prelude.{◌≡◌, ◌↔◌, ◌<◌, ◌^◌, ◌∷◌, ◌++◌, [], true, false, Some, None, IfOk, IfSome, IfNone, OnOk, OnErr, length, replicate, slice_get};
ghost use Rattle.stat_plan.specs.Plans.{nodes};
ghost use Rattle.overlay_event.specs.Events.{event_node};
ghost use Rattle.overlay_core.specs.TreeReleases.{releases_view};
ghost use Rattle.board_turn.specs.Entries.{with_claim, with_home};
ghost use Rattle.overlay_net.specs.Claims.{FitsNet, WasWorked};
ghost use Rattle.overlay_run.specs.Boards.{IsBoard, IsDone, IsHeldBy, IsWholeRun, claimable_of};

use board_turn::{Board, Holding};
use overlay_core::Release;
use overlay_event::{Event, Journal};
use overlay_net::{Claimed, Net};
use prefix_tree::PrefixTree;
use stat_plan::Plan;
use std::alloc::{AllocError, Global};
use std::marker::Model;

/// A net, the journal of the events that were committed, and who has each node out.
#[derive(Drop)]
pub struct NetBoard<'p, T: PrefixTree> {
    plan: &'p Plan,
    net: Net<'p, T>,
    journal: Journal,
    holders: Vec<Option<Holding>>,
    // How many nodes are out.
    nodes_out: u32,
    // How many workers wait for an event, and whether one of them was woken and is not back yet.
    waiting: u32,
    is_woken: bool,
    stopped: bool,
}

/// What a run returns.
#[derive(Drop)]
pub struct Ran<T: PrefixTree> {
    /// The events, in the order in which they were committed.
    pub journal: Journal,
    /// What was released, in order.
    pub releases: Vec<Release<T>>,
}

impl<'p, T: PrefixTree> Model for NetBoard<'p, T> {
    ghost use Rattle.std.specs.Prelude.{◌≡◌};
    ghost use Rattle.board_turn.specs.Entries.{out_count};
    ghost use Rattle.overlay_run.specs.Boards.{BoardView, IsBoard, board_view, coded_board};

    ghost Value = { BoardView };

    ghost coded = { coded_board };

    ghost view = { λ b. board_view b.plan.now b.net b.journal b.holders.items b.stopped };

    ghost invariant = { λ b. IsBoard (board_view b.plan.now b.net b.journal b.holders.items b.stopped)
        × (b.nodes_out ≡ out_count b.holders.items) };
}

impl<'p, T: PrefixTree> Board for NetBoard<'p, T> {
    type Base = Plan;

    ghost journal = { λ b. b.journal };

    ghost holders = { λ b. b.holders };

    ghost base = { λ b. b.plan };

    fn count(&self) -> u64 {
        self.journal.len()
    }

    fn nodes(&self) -> u32 {
        self.plan.nodes()
    }

    fn holder(&self, node: u32) -> Option<Holding> {
        self.holders[node as usize]
    }
}

impl<'p, T: PrefixTree> NetBoard<'p, T> {
    /// The board of a plan in its initial state: the journal is empty, and no node is out.
    pub fn new(alloc: Global, plan: &'p Plan) -> Result<NetBoard<'p, T>, AllocError>
        ensures plan { IfOk result (λ board. board.plan ≡ plan.now) }
        ensures journal { IfOk result (λ board. board.journal ≡ []) }
        ensures holders { IfOk result (λ board. board.holders ≡ replicate (nodes plan.now) None) }
        ensures stopped { IfOk result (λ board. board.stopped ≡ false) }
    {
        let net = Net::new(alloc, plan)?;
        let holders = no_holders(alloc, plan.nodes())?;
        Ok(NetBoard {
            plan,
            net,
            journal: Journal::new(alloc),
            holders,
            nodes_out: 0,
            waiting: 0,
            is_woken: false,
            stopped: false,
        })
    }

    /// The invariant of a board, for the prover. It does nothing.
    pub fn invariant(&self)
        ensures { IsBoard self.now }
    {
        // for the proof: the invariant of the value
        let _ = &self.plan;
    }

    /// Claims the first event that may be claimed, for a seat. It takes no memory.
    pub fn claim(&mut self, seat: u32) -> Option<Claimed<T>>
        ensures plan { self.new.plan ≡ self.old.plan }
        ensures journal { self.new.journal ≡ self.old.journal }
        ensures stopped { self.new.stopped ≡ self.old.stopped }
        ensures none { IfNone result ((self.new ≡ self.old) × (claimable_of self.old.net ≡ [])) }
        ensures first { IfSome result (λ c. slice_get (claimable_of self.old.net) 0 ≡ Some c.event) }
        ensures within_limit { IfSome result (λ c. length self.old.journal < 2 ^ 62) }
        ensures fresh { IfSome result (λ c. c.left ≡ None) }
        ensures fits { IfSome result (λ c. FitsNet self.new.net c) }
        ensures home { IfSome result (λ c. slice_get self.old.holders (event_node c.event) ≡ Some None) }
        ensures holders { IfSome result (λ c. self.new.holders
            ≡ with_claim self.old.holders seat c.event self.old.journal) }
    {
        self.plan.invariant();
        let event = match self.net.claimable(0) {
            Some(event) => event,
            None => return None,
        };
        let since = self.journal.len();
        let claimed = self.net.claim(event);
        self.holders[event.node() as usize] = Some(Holding { seat, event, since });
        self.nodes_out += 1;
        Some(claimed)
    }

    /// Commits a claim of a seat, which was worked on: its node comes home, and its event is added to the journal.
    ///
    /// Fails only if memory runs out. The journal and the holders are then as before.
    pub fn commit(&mut self, alloc: Global, seat: u32, claim: Claimed<T>) -> Result<(), AllocError>
        requires worked { WasWorked self.old.plan claim }
        requires fits { FitsNet self.old.net claim }
        requires holder { IsHeldBy self.old.holders (event_node claim.event) seat claim.event }
        ensures plan { self.new.plan ≡ self.old.plan }
        ensures stopped { self.new.stopped ≡ self.old.stopped }
        ensures journal { OnOk result (self.new.journal ≡ self.old.journal ++ claim.event ∷ []) }
        ensures holders { OnOk result (self.new.holders ≡ with_home self.old.holders claim.event) }
        ensures unchanged { OnErr result ((self.new.journal ≡ self.old.journal)
            × (self.new.holders ≡ self.old.holders)) }
    {
        // for the proof: the seat is the node's holder
        let _ = seat;
        let event = claim.event();
        self.net.prepare(alloc, &claim)?;
        self.journal.push(event)?;
        self.net.commit(claim);
        self.holders[event.node() as usize] = None;
        self.nodes_out -= 1;
        Ok(())
    }

    /// Notes that a worker begins to wait for an event.
    pub fn begin_wait(&mut self)
        ensures { self.new ≡ self.old }
    {
        self.waiting = self.waiting.saturating_add(1);
    }

    /// Notes that a worker waits no longer.
    pub fn end_wait(&mut self)
        ensures { self.new ≡ self.old }
    {
        self.waiting = self.waiting.saturating_sub(1);
        self.is_woken = false;
    }

    /// Whether a worker that waits is to be woken: an event may be claimed, and no other worker was woken for it. It is
    /// noted as woken.
    pub fn wakes_one(&mut self) -> bool
        ensures { self.new ≡ self.old }
    {
        if self.waiting == 0 || self.is_woken {
            return false;
        }
        self.is_woken = self.net.claimable(0).is_some();
        self.is_woken
    }

    /// Whether a worker waits.
    pub fn has_waiting(&self) -> bool {
        self.waiting != 0
    }

    /// Stops the run.
    pub fn stop(&mut self)
        ensures { self.new ≡ record self.old { stopped = true } }
    {
        self.stopped = true;
    }

    /// Whether the run is stopped.
    pub fn is_stopped(&self) -> bool
        ensures { result ≡ self.now.stopped }
    {
        self.stopped
    }

    /// Whether no node is out and no event may be claimed.
    pub fn is_done(&self) -> bool
        ensures { (result ≡ true) ↔ IsDone self.now }
    {
        if self.nodes_out != 0 {
            return false;
        }
        match self.net.claimable(0) {
            Some(_) => false,
            None => true,
        }
    }

    /// The journal and the releases of a board that is done. It takes no memory.
    pub fn into_ran(self) -> Ran<T>
        requires { IsDone self }
        ensures { IsWholeRun self.entry.plan result.journal (releases_view T.tree result.releases.items) }
    {
        self.plan.invariant();
        Ran {
            journal: self.journal,
            releases: self.net.into_releases(),
        }
    }
}

// Holders for this many nodes, none of which is out.
fn no_holders(alloc: Global, count: u32) -> Result<Vec<Option<Holding>>, AllocError>
    ensures { IfOk result (λ holders. holders.items ≡ replicate count None) }
{
    let mut holders = Vec::new(alloc);
    for _ in 0..count {
        holders.push(None)?;
    }
    Ok(holders)
}
