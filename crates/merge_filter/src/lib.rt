//! What the nodes of a job know of a wave, and how it is merged.
//!
//! A [`Contribution`] is a stream, a wave and a tree. It is a partial merge of a plan if its tree is the direct merge
//! of the wave's samples over the ranks it covers. Partial merges of one wave can be absorbed in any order and any
//! number of times: the result is a partial merge that covers the ranks of all.
#![tactic(auto)]

ghost use Rattle.std.specs.Prelude.{◌≡◌, ◌≤◌, ◌<◌, ℕ, [], IfOk, IsSome, OnOk, OnErr};
ghost use Rattle.rank_set.specs.Ranks.{Ranks, none, union};
ghost use Rattle.call_path.specs.Pairs.{Pairs};
ghost use Rattle.prefix_tree.specs.Pairs.{IsWithin};
ghost use Rattle.prefix_tree.specs.Tree.{count_below, tree_of};
ghost use Rattle.stat_plan.specs.Samples.{prefix_count};
ghost use Rattle.overlay_setup.specs.NodeSets.{In};
ghost use Rattle.stat_plan.specs.Plans.{Plan, daemons, grain, nodes, ranks, ranks_on, sample_count, stream_of, stream_ranks};
ghost use Rattle.merge_filter.specs.Contributions.{HasWave, IsPartialMerge, contrib, coverage_of};

mod own_tree;

use overlay_setup::{Grain, WaveTimes};
use own_tree::own_tree;
use prefix_tree::{PrefixTree, TreeError};
use rank_set::RankSet;
use stat_plan::{Plan, Wanted};
use std::alloc::{AllocError, Global};
use std::marker::Model;

// The sample times of a wave of a stream.
fn times_of(plan: &Plan, s: u8, w: u8) -> WaveTimes
    requires { IsSome (stream_of plan.now s) }
    ensures samples { result.samples ≡ sample_count plan.now s }
    ensures wave { result.wave ≡ w }
{
    WaveTimes {
        samples: plan.known_stream(s).samples(),
        wave: w,
    }
}

// How a stream sees paths.
fn grain_of(plan: &Plan, s: u8) -> Grain
    requires { IsSome (stream_of plan.now s) }
    ensures { result ≡ grain plan.now s }
{
    plan.known_stream(s).grain()
}

// The daemons of a stream.
fn daemons_of(plan: &Plan, s: u8) -> &[u32]
    requires { IsSome (stream_of plan.now s) }
    ensures { result.now ≡ daemons plan.now s }
{
    plan.known_stream(s).daemons()
}

// The ranks of some daemons.
fn ranks_of(alloc: Global, plan: &Plan, some: &[u32]) -> Result<RankSet, AllocError>
    requires { (d : ℕ) → In d some.now → d < nodes plan.now }
    ensures { IfOk result (λ own. own ≡ ranks_on plan.now some.now) }
{
    let mut own = RankSet::new(alloc);
    for d in some {
        own.union_into(plan.ranks(*d))?;
    }
    Ok(own)
}

// The wanted samples of a stream.
fn of_wanted<T: PrefixTree>(
    alloc: Global,
    plan: &Plan,
    s: u8,
    wanted: Wanted<'_>,
) -> Result<Contribution<T>, AllocError>
    requires wave { HasWave plan.now s wanted.times.wave }
    requires times { wanted.times.samples ≡ sample_count plan.now s }
    requires daemons { (d : ℕ) → In d wanted.daemons.now → In d (daemons plan.now s) }
    requires ranks { wanted.ranks.now ≡ ranks_on plan.now wanted.daemons.now }
    ensures stream { IfOk result (λ c. c.stream ≡ s) }
    ensures wave { IfOk result (λ c. c.wave ≡ wanted.entry.times.wave) }
    ensures coverage { IfOk result (λ c. coverage_of c ≡ wanted.entry.ranks.now) }
    ensures partial_merge { IfOk result (IsPartialMerge plan.now) }
{
    plan.invariant();
    let seen = plan.wave_lines(alloc, wanted)?;
    let paths = seen.paths_by(grain_of(plan, s));
    let tree = own_tree(alloc, seen.lines(), paths, wanted.times, wanted.ranks)?;
    Ok(Contribution::of_tree(s, wanted.times.wave, tree))
}

/// The law of the limit: a tree has at most as many rows below the root as its pairs have distinct prefixes, and
/// exactly as many where it covers the ranks of all pairs. It does nothing.
pub fn rows_are_prefixes()
    ensures within { (P : Pairs) (C : Ranks) → count_below (tree_of P C) ≤ prefix_count P }
    ensures covered { (P : Pairs) (C : Ranks) → IsWithin P C → count_below (tree_of P C) ≡ prefix_count P }
{}

/// What is known of a wave: a stream, a wave, and a tree of samples of the wave.
#[derive(Drop)]
pub struct Contribution<T: PrefixTree> {
    stream: u8,
    wave: u8,
    tree: T,
}

impl<T: PrefixTree> Model for Contribution<T> {
    ghost use Rattle.merge_filter.specs.Contributions.{Contrib, coded_contrib, contrib};

    ghost Value = { Contrib };

    ghost coded = { coded_contrib };

    ghost view = { λ c. contrib c.stream c.wave (T.tree c.tree) };
}

impl<T: PrefixTree> Contribution<T> {
    /// Nothing yet.
    pub fn none(alloc: Global, s: u8, w: u8) -> Contribution<T>
        ensures stream { result.stream ≡ s }
        ensures wave { result.wave ≡ w }
        ensures coverage { coverage_of result ≡ none }
        ensures partial_merge { (p : Plan) → HasWave p s w → IsPartialMerge p result }
    {
        Contribution::of_tree(s, w, T::empty(alloc))
    }

    /// A daemon's own part: its samples of the wave.
    pub fn of_daemon(
        alloc: Global,
        plan: &Plan,
        d: u32,
        s: u8,
        w: u8,
    ) -> Result<Contribution<T>, AllocError>
        requires daemon { In d (daemons plan.now s) }
        requires wave { HasWave plan.now s w }
        ensures stream { IfOk result (λ c. c.stream ≡ s) }
        ensures wave { IfOk result (λ c. c.wave ≡ w) }
        ensures coverage { IfOk result (λ c. coverage_of c ≡ ranks plan.now d) }
        ensures partial_merge { IfOk result (IsPartialMerge plan.now) }
    {
        plan.invariant();
        let times = times_of(plan, s, w);
        let own = plan.own_lines(d, times)?;
        let paths = own.paths_by(grain_of(plan, s));
        let tree = own_tree(alloc, own.lines(), paths, times, plan.ranks(d))?;
        Ok(Contribution::of_tree(s, w, tree))
    }

    /// The part of some daemons of a stream: their samples of the wave. For each path the ranks of all of them are
    /// united first: so the paths are added once, and no daemon's own part is made.
    pub fn of_daemons(
        alloc: Global,
        plan: &Plan,
        some: &[u32],
        s: u8,
        w: u8,
    ) -> Result<Contribution<T>, AllocError>
        requires daemons { (d : ℕ) → In d some.now → In d (daemons plan.now s) }
        requires wave { HasWave plan.now s w }
        ensures stream { IfOk result (λ c. c.stream ≡ s) }
        ensures wave { IfOk result (λ c. c.wave ≡ w) }
        ensures coverage { IfOk result (λ c. coverage_of c ≡ ranks_on plan.now some.now) }
        ensures partial_merge { IfOk result (IsPartialMerge plan.now) }
    {
        plan.invariant();
        let own = ranks_of(alloc, plan, some)?;
        let wanted = Wanted {
            daemons: some,
            ranks: &own,
            times: times_of(plan, s, w),
        };
        of_wanted(alloc, plan, s, wanted)
    }

    /// The contribution of a tree. It allocates nothing.
    pub fn of_tree(s: u8, w: u8, tree: T) -> Contribution<T>
        ensures { result ≡ contrib s w (T.tree tree) }
    {
        Contribution {
            stream: s,
            wave: w,
            tree,
        }
    }

    /// Unites another part of the wave into it. On failure it is unchanged.
    pub fn absorb(&mut self, plan: &Plan, other: &Contribution<T>) -> Result<(), AllocError>
        requires partial_merge { IsPartialMerge plan.now self.old }
        requires other { IsPartialMerge plan.now other.now }
        requires stream { other.now.stream ≡ self.old.stream }
        requires wave { other.now.wave ≡ self.old.wave }
        ensures stream { OnOk result (self.new.stream ≡ self.old.stream) }
        ensures wave { OnOk result (self.new.wave ≡ self.old.wave) }
        ensures partial_merge { OnOk result (IsPartialMerge plan.now self.new) }
        ensures coverage { OnOk result (coverage_of self.new ≡ union (coverage_of self.old) (coverage_of other.now)) }
        ensures err { OnErr result (self.new ≡ self.old) }
    {
        plan.invariant();
        match self.tree.merge(&other.tree) {
            Ok(()) => {}
            Err(TreeError::OutOfMemory) => return Err(AllocError),
            Err(TreeError::TooManyPrefixes) => unreachable!(),
        }
        Ok(())
    }

    /// Unites another part of the wave into it as `absorb` does, in one pass. On failure its tree is empty: the root
    /// alone, with no ranks.
    pub fn absorb_or_clear(
        &mut self,
        plan: &Plan,
        other: &Contribution<T>,
    ) -> Result<(), AllocError>
        requires partial_merge { IsPartialMerge plan.now self.old }
        requires other { IsPartialMerge plan.now other.now }
        requires stream { other.now.stream ≡ self.old.stream }
        requires wave { other.now.wave ≡ self.old.wave }
        ensures stream { self.new.stream ≡ self.old.stream }
        ensures wave { self.new.wave ≡ self.old.wave }
        ensures partial_merge { OnOk result (IsPartialMerge plan.now self.new) }
        ensures coverage { OnOk result (coverage_of self.new ≡ union (coverage_of self.old) (coverage_of other.now)) }
        ensures err { OnErr result (self.new.tree ≡ tree_of [] none) }
    {
        plan.invariant();
        match self.tree.merge_or_clear(&other.tree) {
            Ok(()) => {}
            Err(TreeError::OutOfMemory) => return Err(AllocError),
            Err(TreeError::TooManyPrefixes) => unreachable!(),
        }
        Ok(())
    }

    /// The same contribution once more.
    pub fn copy(&self) -> Result<Contribution<T>, AllocError>
        ensures { IfOk result (λ c. c ≡ self.now) }
    {
        Ok(Contribution {
            stream: self.stream,
            wave: self.wave,
            tree: self.tree.copy()?,
        })
    }

    /// The tree.
    pub fn tree(&self) -> &T
        ensures { T.tree result.now ≡ self.now.tree }
    {
        &self.tree
    }

    /// The tree alone.
    pub fn into_tree(self) -> T
        ensures { T.tree result ≡ self.tree }
    {
        self.tree
    }

    /// The number of the stream.
    pub fn stream(&self) -> u8
        ensures { result ≡ self.now.stream }
    {
        self.stream
    }

    /// The number of the wave.
    pub fn wave(&self) -> u8
        ensures { result ≡ self.now.wave }
    {
        self.wave
    }

    /// The ranks that it covers.
    pub fn coverage(&self) -> &RankSet
        ensures { result.now ≡ coverage_of self.now }
    {
        self.tree.row(0).label
    }
}

/// All samples of a wave, made as by `of_daemons`.
pub fn direct<T: PrefixTree>(
    alloc: Global,
    plan: &Plan,
    s: u8,
    w: u8,
) -> Result<Contribution<T>, AllocError>
    requires { HasWave plan.now s w }
    ensures stream { IfOk result (λ c. c.stream ≡ s) }
    ensures wave { IfOk result (λ c. c.wave ≡ w) }
    ensures coverage { IfOk result (λ c. coverage_of c ≡ stream_ranks plan.now s) }
    ensures partial_merge { IfOk result (IsPartialMerge plan.now) }
{
    plan.invariant();
    let wanted = Wanted {
        daemons: daemons_of(plan, s),
        ranks: plan.expected(plan.front(), s),
        times: times_of(plan, s, w),
    };
    of_wanted(alloc, plan, s, wanted)
}
