//! The overlay: its nodes, the packets between them, and what was released.

ghost use Rattle.std.specs.Prelude.{◌≡◌, ◌↔◌, [], true, false, Err, IfOk, IsErr, OnErr, OnOk, List, option_copied, option_map, slice_get};
ghost use Rattle.overlay_event.specs.declared.event.Event.{Event};
ghost use Rattle.overlay_core.specs.Bound.{bound};
ghost use Rattle.overlay_core.specs.Machine.{enabled_events, is_enabled};
ghost use Rattle.overlay_core.specs.Pick.{picked};
ghost use Rattle.overlay_core.specs.Runs.{IsQuiet};
ghost use Rattle.event_claims.specs.Claims.{MayBeClaimed, claimable_events};
ghost use Rattle.overlay_core.specs.TreeReleases.{releases_view};
ghost use Rattle.overlay_net.specs.Handled.{ExtendsBy};
ghost use Rattle.overlay_net.specs.Frames.{frame_bytes};
ghost use Rattle.overlay_net.specs.Claims.{FitsNet, IsPrepared, WasWorked};
ghost use Rattle.overlay_net.specs.Nets.{AllHome, IsReachedBy, outs_of, state_of};
ghost use Rattle.overlay_net.specs.Picks.{HasPicked};
ghost use Rattle.overlay_net.specs.States.{IsClaimed, IsCommitted, IsSameNet};

use crate::claimed::Claimed;
use crate::pick::length_bound;
use crate::state::NetState;
use overlay_core::Release;
use overlay_event::{Event, Journal};
use packet_frame::Frame;
use prefix_tree::PrefixTree;
use stat_plan::Plan;
use std::alloc::{AllocError, Global};
use std::marker::Model;

/// Why a net has not done an event.
#[derive(Debug, PartialEq, Eq, Clone, Copy)]
pub enum NetError {
    /// It may not come next.
    NotEnabled,
    /// Out of memory, in this event or in an earlier one.
    OutOfMemory,
}

/// The overlay of a plan: its nodes, the packets between them, and what the front end has released.
#[derive(Drop)]
pub struct Net<'p, T: PrefixTree> {
    plan: &'p Plan,
    state: NetState<T>,
    // Whether an event ran out of memory. The state must not be used then.
    failed: bool,
}

impl<'p, T: PrefixTree> Model for Net<'p, T> {
    ghost use Rattle.std.specs.Prelude.{◌≡◌, false};
    ghost use Rattle.overlay_net.specs.Codes.{coded_net};
    ghost use Rattle.overlay_net.specs.Nets.{NetView};
    ghost use Rattle.overlay_net.specs.States.{IsNetState, net_view};

    ghost Value = { NetView };

    ghost coded = { coded_net };

    ghost view = { λ net. net_view T.tree net.plan.now net.state net.failed };

    ghost invariant = { λ net. net.failed ≡ false → IsNetState T.tree net.plan.now net.state };
}

impl<'p, T: PrefixTree> Net<'p, T> {
    /// The overlay of a plan in its initial state, that of the empty journal.
    pub fn new(alloc: Global, plan: &'p Plan) -> Result<Net<'p, T>, AllocError>
        ensures plan { IfOk result (λ net. net.plan ≡ plan.now) }
        ensures start { IfOk result (λ net. IsReachedBy net []) }
        ensures home { IfOk result (λ net. AllHome net) }
        ensures usable { IfOk result (λ net. net.failed ≡ false) }
    {
        let state = NetState::new(alloc, plan)?;
        Ok(Net {
            plan,
            state,
            failed: false,
        })
    }

    /// Does an event, where no node is out. It may be any event, even one of nodes, streams or waves that the plan
    /// doesn't have; one that may not come next changes nothing. After running out of memory, each later call returns
    /// that error, and the net must not be read any more.
    pub fn apply(&mut self, event: Event) -> Result<(), NetError>
        requires { self.old.failed ≡ false → AllHome self.old }
        ensures home { self.new.failed ≡ false → AllHome self.new }
        ensures plan { self.new.plan ≡ self.old.plan }
        ensures reached { OnOk result (ExtendsBy event self.old self.new) }
        ensures enabled { OnOk result (is_enabled self.old.plan (state_of self.old) event ≡ true) }
        ensures usable { OnOk result (self.new.failed ≡ false) }
        ensures not_enabled { self.old.failed ≡ false
            → (result ≡ Err NetError.NotEnabled) ↔ (is_enabled self.old.plan (state_of self.old) event ≡ false) }
        ensures unchanged { result ≡ Err NetError.NotEnabled → self.new ≡ self.old }
        ensures failed { self.old.failed ≡ true → result ≡ Err NetError.OutOfMemory }
        ensures fails { result ≡ Err NetError.OutOfMemory → self.new.failed ≡ true }
    {
        if self.failed {
            return Err(NetError::OutOfMemory);
        }
        if !self.state.is_enabled(self.plan, event) {
            return Err(NetError::NotEnabled);
        }
        match self.state.apply(self.plan, event) {
            Ok(()) => Ok(()),
            Err(_) => {
                self.failed = true;
                Err(NetError::OutOfMemory)
            }
        }
    }

    /// The `i`-th of the events that may come next, from 0, where no node is out; none past the last. They are ordered
    /// by node, and those of a node as its loss, its samples by stream, what it may receive by sender, and its tick.
    pub fn enabled(&self, i: u64) -> Option<Event>
        requires usable { self.now.failed ≡ false }
        requires home { AllHome self.now }
        ensures { result ≡ slice_get (enabled_events self.now.plan (state_of self.now)) i }
    {
        self.claimable(i)
    }

    /// The `i`-th of the events that may be claimed, from 0; none past the last. Their order is that of
    /// [`enabled`](Net::enabled). It takes no memory.
    pub fn claimable(&self, i: u64) -> Option<Event>
        requires { self.now.failed ≡ false }
        ensures { result ≡ slice_get (claimable_events self.now.plan (state_of self.now) (outs_of self.now)) i }
    {
        self.state.claimable(self.plan, i)
    }

    /// The first frame on the link from `m` to `n`, where no node is out; none if the link is empty. A number that is
    /// no node's has no links. It takes no memory.
    pub fn first_frame(&self, n: u32, m: u32) -> Option<&Frame>
        requires usable { self.now.failed ≡ false }
        requires home { AllHome self.now }
        ensures { option_copied result
            ≡ option_map (frame_bytes self.now.plan) (slice_get ((state_of self.now).link m n) 0) }
    {
        match self.state.nodes.inboxes.get(n as usize) {
            Some(inbox) => inbox.first(m),
            None => None,
        }
    }

    /// Claims an event: its node goes out, with the frame that the event receives. The net's state stays: until the
    /// claim is committed, contracts see the node and the frame as they went out. It takes no memory.
    pub fn claim(&mut self, event: Event) -> Claimed<T>
        requires usable { self.old.failed ≡ false }
        requires may { MayBeClaimed self.old.plan (state_of self.old) (outs_of self.old) event }
        ensures claimed { IsClaimed event result self.old self.new }
        ensures usable { self.new.failed ≡ false }
    {
        self.state.claim(self.plan, event)
    }

    /// Makes room for all that a claim, which was worked on, sends and releases.
    ///
    /// Fails only if memory runs out. The net is then as it was.
    pub fn prepare(&mut self, alloc: Global, claim: &Claimed<T>) -> Result<(), AllocError>
        requires usable { self.old.failed ≡ false }
        requires fits { FitsNet self.old claim.now }
        requires worked { WasWorked self.old.plan claim.now }
        ensures same { IsSameNet self.old self.new }
        ensures usable { self.new.failed ≡ false }
        ensures prepared { OnOk result (IsPrepared self.new claim.now) }
    {
        self.state.prepare(alloc, self.plan, claim)
    }

    /// Commits a claim for which there is room: its node comes home, what it sends is delivered, and what it releases
    /// is added to the releases. It takes no memory.
    pub fn commit(&mut self, claim: Claimed<T>)
        requires usable { self.old.failed ≡ false }
        requires fits { FitsNet self.old claim }
        requires worked { WasWorked self.old.plan claim }
        requires prepared { IsPrepared self.old claim }
        ensures committed { IsCommitted claim.event self.old self.new }
        ensures usable { self.new.failed ≡ false }
    {
        self.state.commit(self.plan, claim);
    }

    /// Whether no event may come next, where no node is out.
    pub fn is_quiet(&self) -> bool
        requires usable { self.now.failed ≡ false }
        requires home { AllHome self.now }
        ensures no_events { (result ≡ true) ↔ (enabled_events self.now.plan (state_of self.now) ≡ []) }
        ensures quiet { (result ≡ true) ↔ IsQuiet self.now.plan (state_of self.now) }
    {
        self.plan.invariant();
        self.state.counts.total() == 0
    }

    /// Does the events that the numbers after the seed pick, one after another, until none may come next, where no node
    /// is out. They are the journal. The number after `x` is `x * 6364136223846793005 + 1442695040888963407` modulo
    /// 2^64; with `n` events that may come next, it picks the one of number `x / 2^33` modulo `n`, in the order of
    /// [`enabled`](Net::enabled).
    ///
    /// A net that has run out of memory once, here too, returns that error ever after, and must not be read any more.
    pub fn run_picked(&mut self, seed: u64) -> Result<Journal, AllocError>
        requires { self.old.failed ≡ false → AllHome self.old }
        ensures home { self.new.failed ≡ false → AllHome self.new }
        ensures plan { self.new.plan ≡ self.old.plan }
        ensures picked { IfOk result (λ journal. HasPicked self.old seed journal self.new) }
        ensures start { IsReachedBy self.old []
            → IfOk result (λ journal. (journal ≡ picked self.old.plan seed) × IsReachedBy self.new journal) }
        ensures usable { OnOk result (self.new.failed ≡ false) }
        ensures failed { self.old.failed ≡ true → IsErr result }
        ensures fails { OnErr result (self.new.failed ≡ true) }
    {
        self.plan.invariant();
        if self.failed {
            return Err(AllocError);
        }
        match self.state.run_picked(self.plan, seed) {
            Ok(journal) => Ok(journal),
            Err(_) => {
                self.failed = true;
                Err(AllocError)
            }
        }
    }

    /// A number of events that no journal of the plan has more of: with `n` nodes, `m` waves of all streams and the
    /// greatest timeout `t`, it is `n * n + 9 * n + 3 * n * m * (n + 9) * (t + 1)`.
    pub fn length_bound(&self) -> u64
        ensures { result ≡ bound self.now.plan }
    {
        length_bound(self.plan)
    }

    /// The invariant of a net, for the prover: one that has not run out of memory is reached by a journal. It does
    /// nothing.
    pub fn invariant(&self)
        requires { self.now.failed ≡ false }
        ensures { (journal : List Event) × IsReachedBy self.now journal }
    {
        // for the proof: the invariant of the value
        let _ = &self.state;
    }

    /// What was released, in order.
    pub fn releases(&self) -> &[Release<T>]
        requires { self.now.failed ≡ false }
        ensures { releases_view T.tree result.now ≡ self.now.releases }
    {
        self.state.releases.as_slice()
    }

    /// What was released, in order.
    pub fn into_releases(self) -> Vec<Release<T>>
        ensures { releases_view T.tree result.items ≡ self.entry.releases }
    {
        self.state.releases
    }
}
