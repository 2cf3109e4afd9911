//! What a node's events do to its waves.

ghost use Rattle.std.specs.Prelude.{◌≡◌, ◌<◌, ℕ, length, true, false, OnOk};
ghost use Rattle.rank_set.specs.Ranks.{union};
ghost use Rattle.overlay_setup.specs.NodeSets.{In};
ghost use Rattle.stat_plan.specs.Plans.{daemons, ranks};
ghost use Rattle.stat_plan.specs.Machine.Waves.{covering, growing, is_fired, is_empty_open};
ghost use Rattle.stat_plan.specs.Machine.Waves.{is_closed};
ghost use Rattle.merge_filter.specs.Contributions.{HasWave, IsPartialMerge, contrib, coverage_of};
ghost use Rattle.wave_resend.specs.Books.{IsIn, book_of, keys_of};
ghost use Rattle.overlay_node.specs.NodeViews.{held_keys};
ghost use Rattle.overlay_node.specs.Contexts.{AllFitAt, FitsAt, IsNodeContext, StepsAt, StepsWaveAt, act_at, changed_at, each_at, end_at, fired_at, tick_at};
ghost use Rattle.overlay_node.specs.Acting.{AreDistinct, held_index, partial_merge};

use crate::context::NodeContext;
use crate::held::HeldWave;
use crate::sending::send_dones;
use crate::work::{NodeWork, WaveWork};
use merge_filter::Contribution;
use prefix_tree::PrefixTree;
use stat_plan::{Plan, Timer};
use std::alloc::AllocError;
use wave_resend::{WaveBook, WaveState};

/// Whether a wave is closed at the node.
pub fn is_closed(book: &WaveBook, s: u8, w: u8) -> bool
    requires { IsIn s w book.now }
    ensures { result ≡ is_closed (book_of book.now s w) }
{
    match book.state(s, w) {
        WaveState::Open { .. } => false,
        WaveState::Closed => true,
    }
}

// Whether a wave is open and its timer has run out.
fn is_fired(book: &WaveBook, s: u8, w: u8) -> bool
    requires { IsIn s w book.now }
    ensures { result ≡ is_fired (book_of book.now s w) }
{
    match book.state(s, w) {
        WaveState::Open { timer, .. } => timer == Timer::Fired,
        WaveState::Closed => false,
    }
}

// Unites what was received of a wave with what has come in of it.
fn unite<T: PrefixTree>(
    plan: &Plan,
    part: &mut Contribution<T>,
    received: Contribution<T>,
) -> Result<(), AllocError>
    requires part_merge { IsPartialMerge plan.now part.old }
    requires received_merge { IsPartialMerge plan.now received }
    requires stream { received.stream ≡ part.old.stream }
    requires wave { received.wave ≡ part.old.wave }
    ensures { OnOk result (part.new
        ≡ partial_merge plan.now part.old.stream part.old.wave (union (coverage_of part.old) (coverage_of received))) }
{
    if part.coverage().first().is_none() {
        *part = received;
        return Ok(());
    }
    part.absorb_or_clear(plan, &received)
}

impl<T: PrefixTree> WaveWork<T> {
    // Unites what was received of an open wave with what has come in of it, and does what is due then.
    fn grow(
        &mut self,
        context: &NodeContext<'_>,
        held: &mut HeldWave<T>,
        received: Contribution<T>,
    ) -> Result<(), AllocError>
        requires context { IsNodeContext context.now }
        requires known { IsIn held.old.stream held.old.wave self.old.book }
        requires fits { FitsAt context.now self.old.book held.old }
        requires open { is_closed (book_of self.old.book held.old.stream held.old.wave) ≡ false }
        requires received_merge { IsPartialMerge context.now.plan.now received }
        requires stream { received.stream ≡ held.old.stream }
        requires wave { received.wave ≡ held.old.wave }
        ensures { OnOk result (StepsWaveAt context.now
            (changed_at context.now held.old.stream held.old.wave (growing (coverage_of received)))
            held.old held.new self.old self.new) }
    {
        self.book.grew(held.stream, held.wave, received.coverage())?;
        match &mut held.part {
            Some(part) => unite(context.plan, part, received)?,
            None => unreachable!(),
        }
        self.act(context, held)
    }

    // Takes what was received of a wave. It is ignored if the wave is closed.
    fn take_up(
        &mut self,
        context: &NodeContext<'_>,
        held: &mut HeldWave<T>,
        received: Contribution<T>,
    ) -> Result<(), AllocError>
        requires context { IsNodeContext context.now }
        requires known { IsIn held.old.stream held.old.wave self.old.book }
        requires fits { FitsAt context.now self.old.book held.old }
        requires received_merge { IsPartialMerge context.now.plan.now received }
        requires stream { received.stream ≡ held.old.stream }
        requires wave { received.wave ≡ held.old.wave }
        ensures { OnOk result (StepsWaveAt context.now
            (changed_at context.now held.old.stream held.old.wave (growing (coverage_of received)))
            held.old held.new self.old self.new) }
    {
        if is_closed(&self.book, held.stream, held.wave) {
            return Ok(());
        }
        self.grow(context, held, received)
    }

    // Takes a daemon's own part of a wave of which nothing has come in, and does what is due then.
    fn take_sample(
        &mut self,
        context: &NodeContext<'_>,
        held: &mut HeldWave<T>,
        own: Contribution<T>,
    ) -> Result<(), AllocError>
        requires context { IsNodeContext context.now }
        requires known { IsIn held.old.stream held.old.wave self.old.book }
        requires fits { FitsAt context.now self.old.book held.old }
        requires empty { is_empty_open (book_of self.old.book held.old.stream held.old.wave) ≡ true }
        requires partial_merge { IsPartialMerge context.now.plan.now own }
        requires stream { own.stream ≡ held.old.stream }
        requires wave { own.wave ≡ held.old.wave }
        ensures { OnOk result (StepsWaveAt context.now
            (changed_at context.now held.old.stream held.old.wave (covering (coverage_of own)))
            held.old held.new self.old self.new) }
    {
        self.book.grew(held.stream, held.wave, own.coverage())?;
        held.part = Some(own);
        self.act(context, held)
    }

    // Closes a wave if it is open, and tells the children.
    fn end(&mut self, context: &NodeContext<'_>, held: &mut HeldWave<T>) -> Result<(), AllocError>
        requires context { IsNodeContext context.now }
        requires known { IsIn held.old.stream held.old.wave self.old.book }
        requires fits { FitsAt context.now self.old.book held.old }
        ensures { OnOk result (StepsWaveAt context.now (end_at context.now held.old.stream held.old.wave)
            held.old held.new self.old self.new) }
    {
        if is_closed(&self.book, held.stream, held.wave) {
            return Ok(());
        }
        send_dones::<T>(context, held.stream, held.wave, &mut self.effects.sends)?;
        self.book.close(held.stream, held.wave);
        held.part = None;
        Ok(())
    }

    // Does what is due for a wave whose timer has run out.
    fn act_if_fired(
        &mut self,
        context: &NodeContext<'_>,
        held: &mut HeldWave<T>,
    ) -> Result<(), AllocError>
        requires context { IsNodeContext context.now }
        requires known { IsIn held.old.stream held.old.wave self.old.book }
        requires fits { FitsAt context.now self.old.book held.old }
        ensures { OnOk result (StepsWaveAt context.now (fired_at context.now held.old.stream held.old.wave)
            held.old held.new self.old self.new) }
    {
        if is_fired(&self.book, held.stream, held.wave) {
            return self.act(context, held);
        }
        Ok(())
    }
}

impl<T: PrefixTree> NodeWork<T> {
    // The index of what is held of a wave.
    fn held_index(&self, s: u8, w: u8) -> usize
        requires { In {X = ℕ × ℕ} (s, w) (held_keys self.now.held.items) }
        ensures index { result ≡ held_index s w self.now.held.items }
        ensures in_range { result < length self.now.held.items }
    {
        for (i, wave) in self.held.iter().enumerate() {
            if wave.stream == s && wave.wave == w {
                return i;
            }
        }
        self.held.len()
    }

    /// A daemon takes its samples of a wave of which nothing has come in yet.
    pub fn on_sample(&mut self, context: &NodeContext<'_>, s: u8, w: u8) -> Result<(), AllocError>
        requires context { IsNodeContext context.now }
        requires keys { held_keys self.old.held.items ≡ keys_of self.old.work.book }
        requires distinct { AreDistinct (held_keys self.old.held.items) }
        requires fits { AllFitAt context.now self.old }
        requires known { In {X = ℕ × ℕ} (s, w) (held_keys self.old.held.items) }
        requires wave { HasWave context.now.plan.now s w }
        requires daemon { In context.now.kin.now.node (daemons context.now.plan.now s) }
        requires empty { is_empty_open (book_of self.old.work.book s w) ≡ true }
        ensures { OnOk result (StepsAt context.now
            (changed_at context.now s w (covering (ranks context.now.plan.now context.now.kin.now.node)))
            self.old self.new) }
    {
        let alloc = *self.held.allocator();
        let own = Contribution::of_daemon(alloc, context.plan, context.kin.node(), s, w)?;
        let i = self.held_index(s, w);
        let wave = &mut self.held[i];
        self.work.take_sample(context, wave, own)?;
        Ok(())
    }

    /// A child has sent what has come in of a wave at it.
    pub fn on_up(
        &mut self,
        context: &NodeContext<'_>,
        s: u8,
        w: u8,
        tree: T,
    ) -> Result<(), AllocError>
        requires context { IsNodeContext context.now }
        requires keys { held_keys self.old.held.items ≡ keys_of self.old.work.book }
        requires distinct { AreDistinct (held_keys self.old.held.items) }
        requires fits { AllFitAt context.now self.old }
        requires known { In {X = ℕ × ℕ} (s, w) (held_keys self.old.held.items) }
        requires received_merge { IsPartialMerge context.now.plan.now (contrib s w (T.tree tree)) }
        ensures { OnOk result (StepsAt context.now (changed_at context.now s w (growing (T.tree tree).coverage))
            self.old self.new) }
    {
        let received = Contribution::of_tree(s, w, tree);
        let i = self.held_index(s, w);
        let wave = &mut self.held[i];
        self.work.take_up(context, wave, received)?;
        Ok(())
    }

    /// The parent has sent that a wave is closed.
    pub fn on_done(&mut self, context: &NodeContext<'_>, s: u8, w: u8) -> Result<(), AllocError>
        requires context { IsNodeContext context.now }
        requires keys { held_keys self.old.held.items ≡ keys_of self.old.work.book }
        requires distinct { AreDistinct (held_keys self.old.held.items) }
        requires fits { AllFitAt context.now self.old }
        requires known { In {X = ℕ × ℕ} (s, w) (held_keys self.old.held.items) }
        ensures { OnOk result (StepsAt context.now (end_at context.now s w) self.old self.new) }
    {
        let i = self.held_index(s, w);
        let wave = &mut self.held[i];
        self.work.end(context, wave)?;
        Ok(())
    }

    // Does what is due for the waves whose timers have run out, by stream and wave.
    fn act_on_fired(&mut self, context: &NodeContext<'_>) -> Result<(), AllocError>
        requires context { IsNodeContext context.now }
        requires keys { held_keys self.old.held.items ≡ keys_of self.old.work.book }
        requires distinct { AreDistinct (held_keys self.old.held.items) }
        requires fits { AllFitAt context.now self.old }
        ensures { OnOk result (StepsAt context.now (each_at (fired_at context.now) (held_keys self.old.held.items))
            self.old self.new) }
    {
        for i in 0..self.held.len() {
            let wave = &mut self.held[i];
            self.work.act_if_fired(context, wave)?;
        }
        Ok(())
    }

    /// The timers go on by one, and the waves whose timers have run out are acted on, by stream and wave.
    pub fn on_tick(&mut self, context: &NodeContext<'_>) -> Result<(), AllocError>
        requires context { IsNodeContext context.now }
        requires keys { held_keys self.old.held.items ≡ keys_of self.old.work.book }
        requires distinct { AreDistinct (held_keys self.old.held.items) }
        requires fits { AllFitAt context.now self.old }
        ensures { OnOk result (StepsAt context.now (tick_at context.now (held_keys self.old.held.items))
            self.old self.new) }
    {
        self.work.book.tick();
        self.act_on_fired(context)
    }

    /// Does what is due for each wave, by stream and wave.
    pub fn act_on_each(&mut self, context: &NodeContext<'_>) -> Result<(), AllocError>
        requires context { IsNodeContext context.now }
        requires keys { held_keys self.old.held.items ≡ keys_of self.old.work.book }
        requires distinct { AreDistinct (held_keys self.old.held.items) }
        requires fits { AllFitAt context.now self.old }
        ensures { OnOk result (StepsAt context.now (each_at (act_at context.now) (held_keys self.old.held.items))
            self.old self.new) }
    {
        for i in 0..self.held.len() {
            let wave = &mut self.held[i];
            self.work.act(context, wave)?;
        }
        Ok(())
    }
}
