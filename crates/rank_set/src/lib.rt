//! Sets of ranks, held as words of 64 bits or as runs of neighbours, whichever takes less room.
//!
//! A contract sees a `RankSet` as a value of `Ranks`: the members in ascending order. Two sets with the same members
//! are equal, however they are held.
#![tactic(auto)]

ghost use Rattle.std.specs.Prelude.{◌≡◌, ℕ, ◌<◌, ◌≤◌, ◌/◌, ◌↔◌, true, false, OnOk, OnErr, IfOk, IfSome, IfNone, Some, slice_get, not, map, ◌++◌, [], ◌∷◌};
ghost use Rattle.rank_set.specs.Ranks.{none, has, with_rank, union, those, in_order, is_empty, is_subset, size, Has};
ghost use Rattle.rank_set.specs.Runs.{ranks_between, IsRun, runs_of, up_to};
ghost use Rattle.rank_set.specs.Words.{ranks_in, AreWords, offset_of};
ghost use Rattle.rank_set.specs.WordLists.{words_of};
ghost use Rattle.rank_set.specs.Text.{text_of};

mod by_runs;
pub mod digits;
mod held;
pub mod laws;
mod one_word;
mod read;
mod run_list;
mod run_set;
mod sorted_runs;
mod text;
mod word_set;
mod words;

use held::{FEW_WORDS, Held};
pub use one_word::word_is_below;
pub use read::{RanksError, read_ranks};
use run_set::RunSet;
use std::alloc::{AllocError, Global};
use std::marker::Model;
use word_set::WordSet;

/// The most words that a set spans.
pub const WORD_LIMIT: u32 = 16_384;

/// Ranks are below this.
pub const RANK_LIMIT: u32 = 64 * WORD_LIMIT;

/// Why ranks could not be added.
#[derive(Debug, PartialEq, Eq, Clone, Copy)]
pub enum RankError {
    /// A rank is `RANK_LIMIT` or more.
    OverLimit,
    /// Out of memory.
    OutOfMemory,
}

impl From<AllocError> for RankError {
    ghost use Rattle.std.specs.Prelude.{◌≡◌};
    ghost use Rattle.rank_set.specs.declared.RankError.TheVariants.{OutOfMemory};

    ghost from_gives = { λ _ e. e ≡ OutOfMemory };

    fn from(_: AllocError) -> Self {
        RankError::OutOfMemory
    }
}

/// Neighbouring ranks, from the first to the last.
#[derive(Debug, PartialEq, Eq, Clone, Copy, Default)]
pub struct Run {
    pub first: u32,
    pub last: u32,
}

/// A set of ranks, each below `RANK_LIMIT`.
#[derive(Drop)]
pub struct RankSet {
    held: Held,
}

impl Model for RankSet {
    ghost use Rattle.rank_set.specs.Ranks.{Ranks, coded_ranks};
    ghost use Rattle.rank_set.specs.Held.{ranks_held};

    ghost Value = { Ranks };

    ghost coded = { coded_ranks };

    ghost view = { λ a. ranks_held a.held };
}

impl RankSet {
    /// The empty set. It allocates nothing.
    pub fn new(alloc: Global) -> RankSet
        ensures { result ≡ none }
    {
        RankSet {
            held: Held::Words(WordSet::new(alloc)),
        }
    }

    /// The invariant of a set, for the prover: each rank is below `RANK_LIMIT`. It does nothing.
    pub fn invariant(&self)
        ensures { (r : ℕ) → Has r self.now → r < RANK_LIMIT }
    {
        match &self.held {
            Held::Words(words) => words.invariant(),
            Held::Runs(runs) => runs.invariant(),
        }
    }

    /// The set of trimmed words, the first of which is word `offset` of all.
    pub fn from_words(_alloc: Global, offset: u32, words: Vec<u64>) -> Result<RankSet, AllocError>
        requires { AreWords offset words.items }
        ensures { IfOk result (λ set. set ≡ ranks_in offset words.items) }
    {
        let mut held = Held::Words(WordSet::from_words(offset, words));
        held.settle();
        Ok(RankSet { held })
    }

    /// A copy of the set.
    pub fn copy(&self) -> Result<RankSet, AllocError>
        ensures { IfOk result (λ copy. copy ≡ self.now) }
    {
        let held = match &self.held {
            Held::Words(words) => Held::Words(words.copy()?),
            Held::Runs(runs) => Held::Runs(runs.copy()?),
        };
        Ok(RankSet { held })
    }

    /// The allocator of the set.
    fn allocator(&self) -> Global {
        match &self.held {
            Held::Words(words) => words.allocator(),
            Held::Runs(runs) => runs.allocator(),
        }
    }

    /// Adds a rank. On failure the set is unchanged.
    pub fn insert(&mut self, r: u32) -> Result<(), RankError>
        ensures ok { OnOk result (self.new ≡ with_rank self.old r) }
        ensures over { (result ≡ Err RankError.OverLimit) ↔ (RANK_LIMIT ≤ r) }
        ensures err { OnErr result (self.new ≡ self.old) }
    {
        if r >= RANK_LIMIT {
            return Err(RankError::OverLimit);
        }
        self.put_run(r, r)?;
        Ok(())
    }

    /// Adds the ranks from `first` to `last`, or nothing if `last` is less. On failure the set is unchanged.
    pub fn insert_run(&mut self, first: u32, last: u32) -> Result<(), RankError>
        ensures ok { OnOk result (self.new ≡ union self.old (ranks_between first last)) }
        ensures over { (result ≡ Err RankError.OverLimit) ↔ (RANK_LIMIT ≤ last) }
        ensures err { OnErr result (self.new ≡ self.old) }
    {
        if last >= RANK_LIMIT {
            return Err(RankError::OverLimit);
        }
        if first <= last {
            self.put_run(first, last)?;
        }
        Ok(())
    }

    /// The set of the ranks from `first` to `last`, which lie in one word. It allocates nothing.
    pub fn in_one_word(alloc: Global, first: u32, last: u32) -> RankSet
        requires not_empty { first ≤ last }
        requires below_limit { last < RANK_LIMIT }
        requires one { first / 64 ≡ last / 64 }
        ensures { result ≡ union none (ranks_between first last) }
    {
        RankSet {
            held: Held::Words(WordSet::in_one_word(alloc, first, last)),
        }
    }

    /// The set of the ranks from `first` to `last`, if it is one that takes no allocation.
    pub(crate) fn of_run(alloc: Global, first: u32, last: u32) -> Option<RankSet>
        requires not_empty { first ≤ last }
        requires below_limit { last < RANK_LIMIT }
        ensures { IfSome result (λ set. set ≡ union none (ranks_between first last)) }
    {
        let more_words = last / 64 - first / 64;
        if more_words == 0 {
            return Some(RankSet::in_one_word(alloc, first, last));
        }
        if more_words < FEW_WORDS {
            return None;
        }
        Some(RankSet {
            held: Held::Runs(RunSet::of_run(alloc, Run { first, last })),
        })
    }

    /// Adds the ranks of a run that is not empty and within the limit.
    pub(crate) fn put_run(&mut self, first: u32, last: u32) -> Result<(), AllocError>
        requires not_empty { first ≤ last }
        requires below_limit { last < RANK_LIMIT }
        ensures ok { OnOk result (self.new ≡ union self.old (ranks_between first last)) }
        ensures err { OnErr result (self.new ≡ self.old) }
    {
        self.held.put_run(first, last)
    }

    /// The empty set, in the form of runs and with room for so many: for ranks that are collected in order.
    pub fn with_run_capacity(alloc: Global, runs: usize) -> Result<RankSet, AllocError>
        ensures { IfOk result (λ set. set ≡ none) }
    {
        Ok(RankSet {
            held: Held::Runs(RunSet::with_capacity(alloc, runs)?),
        })
    }

    /// Adds the ranks of a run, as `insert_run` does. It serves to collect ranks in order: the form of the set is
    /// chosen by [`RankSet::settle`], after the last of them. On failure the set is unchanged.
    #[inline(always)]
    pub fn collect_run(&mut self, first: u32, last: u32) -> Result<(), AllocError>
        requires not_empty { first ≤ last }
        requires below_limit { last < RANK_LIMIT }
        ensures ok { OnOk result (self.new ≡ union self.old (ranks_between first last)) }
        ensures err { OnErr result (self.new ≡ self.old) }
    {
        self.held.collect_run(first, last)
    }

    /// Takes the other form where that takes less room.
    pub fn settle(&mut self)
        ensures { self.new ≡ self.old }
    {
        self.held.settle();
    }

    /// Adds the ranks of the other set. On failure the set is unchanged.
    #[inline(always)]
    pub fn union_into(&mut self, other: &RankSet) -> Result<(), AllocError>
        ensures ok { OnOk result (self.new ≡ union self.old other.now) }
        ensures err { OnErr result (self.new ≡ self.old) }
    {
        // Most often one word of ranks joins words that reach it.
        if self.held.take_up_word(&other.held) {
            return Ok(());
        }
        self.held.unite(&other.held)
    }

    /// The ranks of both sets.
    pub fn united(&self, other: &RankSet) -> Result<RankSet, AllocError>
        ensures { IfOk result (λ all. all ≡ union self.now other.now) }
    {
        if let (Held::Words(words), Held::Words(others)) = (&self.held, &other.held) {
            let mut held = Held::Words(words.united(others)?);
            held.settle_if_wider(words.span());
            return Ok(RankSet { held });
        }
        if let (Held::Runs(runs), Held::Runs(others)) = (&self.held, &other.held) {
            let mut held = Held::Runs(runs.united(others)?);
            held.settle();
            return Ok(RankSet { held });
        }
        if let (Held::Runs(runs), Held::Words(others)) = (&self.held, &other.held) {
            let mut held = Held::Runs(runs.united(&others.to_runs()?)?);
            held.settle();
            return Ok(RankSet { held });
        }
        let mut all = self.copy()?;
        all.held.unite(&other.held)?;
        Ok(all)
    }

    /// The ranks that are in the other set, too. The smaller of two goes first.
    pub fn intersection(&self, other: &RankSet) -> Result<RankSet, AllocError>
        ensures { IfOk result (λ both. both ≡ those (λ r. has other.now r) self.now) }
    {
        if let (Held::Words(words), Held::Words(others)) = (&self.held, &other.held) {
            let mut held = Held::Words(words.intersection(others)?);
            held.settle();
            return Ok(RankSet { held });
        }
        let others = by_runs::difference(self, other)?;
        let both = by_runs::difference(self, &others)?;
        Ok(both)
    }

    /// The ranks that are not in the other set.
    pub fn difference(&self, other: &RankSet) -> Result<RankSet, AllocError>
        ensures { IfOk result (λ rest. rest ≡ those (λ r. not (has other.now r)) self.now) }
    {
        if let (Held::Words(words), Held::Words(others)) = (&self.held, &other.held) {
            let mut held = Held::Words(words.difference(others)?);
            held.settle();
            return Ok(RankSet { held });
        }
        if self.is_subset(other) {
            return Ok(RankSet::new(self.allocator()));
        }
        by_runs::difference(self, other)
    }

    /// Whether the rank is in the set.
    pub fn contains(&self, r: u32) -> bool
        ensures { result ≡ has self.now r }
    {
        match &self.held {
            Held::Words(words) => words.contains(r),
            Held::Runs(runs) => runs.contains(r),
        }
    }

    /// Whether each rank of the set is in the other.
    #[inline(always)]
    pub fn is_subset(&self, other: &RankSet) -> bool
        ensures { result ≡ is_subset self.now other.now }
    {
        if let (Held::Words(words), Held::Words(others)) = (&self.held, &other.held) {
            return words.is_subset(others);
        }
        by_runs::is_subset(self, other)
    }

    /// Whether no rank of the set is in the other.
    #[inline(always)]
    pub fn is_disjoint(&self, other: &RankSet) -> bool
        ensures { result ≡ is_empty (those (λ r. has other.now r) self.now) }
    {
        if let (Held::Words(words), Held::Words(others)) = (&self.held, &other.held) {
            return words.is_disjoint(others);
        }
        by_runs::is_disjoint(self, other)
    }

    /// Whether the two sets have the same ranks.
    #[inline(always)]
    pub fn equals(&self, other: &RankSet) -> bool
        ensures { (result ≡ true) ↔ (self.now ≡ other.now) }
    {
        if let (Held::Words(words), Held::Words(others)) = (&self.held, &other.held) {
            return words.equals(others);
        }
        by_runs::equals(self, other)
    }

    /// Whether the set has no ranks.
    #[inline(always)]
    pub fn is_empty(&self) -> bool
        ensures { result ≡ is_empty self.now }
    {
        match &self.held {
            Held::Words(words) => words.is_empty(),
            Held::Runs(runs) => runs.is_empty(),
        }
    }

    /// The number of ranks in the set.
    pub fn count(&self) -> u32
        ensures count { result ≡ size self.now }
        ensures within_limit { result ≤ RANK_LIMIT }
    {
        match &self.held {
            Held::Words(words) => words.count(),
            Held::Runs(runs) => runs.count(),
        }
    }

    /// The least rank, `None` for the empty set.
    pub fn first(&self) -> Option<u32>
        ensures none { IfNone result (self.now ≡ none) }
        ensures least { IfSome result (λ r. slice_get (in_order self.now) 0 ≡ Some r) }
        ensures below_limit { IfSome result (λ r. r < RANK_LIMIT) }
    {
        match &self.held {
            Held::Words(words) => words.first(),
            Held::Runs(runs) => runs.first(),
        }
    }

    /// A number above each rank.
    pub fn end(&self) -> u32
        ensures above { (r : ℕ) → has self.now r ≡ true → r < result }
        ensures within_limit { result ≤ RANK_LIMIT }
    {
        match &self.held {
            Held::Words(words) => words.end(),
            Held::Runs(runs) => runs.end(),
        }
    }

    /// The longest run of neighbours that begins with the least rank at or above `from`, `None` where there is no such
    /// rank.
    pub fn next_run(&self, from: u32) -> Option<Run>
        ensures none { IfNone result ((q : ℕ) → from ≤ q → has self.now q ≡ false) }
        ensures run { IfSome result (λ run. IsRun self.now from run.first run.last) }
        ensures below_limit { IfSome result (λ run. run.last < RANK_LIMIT) }
    {
        self.next_run_near(from, &mut 0)
    }

    /// The run that `next_run` returns. The hint is what an earlier call left in it, 0 at first, and makes the search
    /// short.
    pub fn next_run_near(&self, from: u32, hint: &mut usize) -> Option<Run>
        ensures none { IfNone result ((q : ℕ) → from ≤ q → has self.now q ≡ false) }
        ensures run { IfSome result (λ run. IsRun self.now from run.first run.last) }
        ensures below_limit { IfSome result (λ run. run.last < RANK_LIMIT) }
    {
        match &self.held {
            Held::Words(words) => words.next_run(from),
            Held::Runs(runs) => runs.next_run(from, hint),
        }
    }

    /// The longest run among the ranks up to `to` that begins with the least rank at or above `from`.
    pub(crate) fn run_within(&self, from: u32, to: u32, hint: &mut usize) -> Option<Run>
        ensures none { IfNone result ((q : ℕ) → from ≤ q → q ≤ to → has self.now q ≡ false) }
        ensures run { IfSome result (λ run. IsRun (up_to to self.now) from run.first run.last) }
        ensures below_limit { IfSome result (λ run. run.last < RANK_LIMIT) }
    {
        match &self.held {
            Held::Words(words) => words.run_within(from, to),
            Held::Runs(runs) => runs.run_within(from, to, hint),
        }
    }

    /// Whether all ranks of a run are in the set.
    pub(crate) fn has_run(&self, run: Run, hint: &mut usize) -> bool
        requires { run.first ≤ run.last }
        ensures { result ≡ is_subset (ranks_between run.first run.last) self.now }
    {
        match &self.held {
            Held::Words(words) => words.has_run(run),
            Held::Runs(runs) => runs.has_run(run, hint),
        }
    }

    /// All longest runs of neighbours, in order.
    pub fn runs(&self, alloc: Global) -> Result<Vec<Run>, AllocError>
        ensures { IfOk result (λ runs. map (λ run. (run.first, run.last)) runs.items ≡ runs_of (in_order self.now)) }
    {
        match &self.held {
            Held::Words(words) => words.runs(alloc),
            Held::Runs(runs) => runs.runs(alloc),
        }
    }

    /// Appends the set's text, as `4:[0-2,7]`. On failure `out` is unchanged.
    pub fn write_text(&self, out: &mut Vec<u8>) -> Result<(), AllocError>
        ensures ok { OnOk result (out.new.items ≡ out.old.items ++ text_of self.now) }
        ensures err { OnErr result (out.new.items ≡ out.old.items) }
    {
        let len = out.len();
        let written = match &self.held {
            Held::Words(words) => words.write_text(out),
            Held::Runs(runs) => runs.write_text(out),
        };
        if written.is_err() {
            out.truncate(len);
        }
        written
    }

    /// The index of the first word among all words: the least rank / 64, or 0 for the empty set.
    pub fn word_offset(&self) -> u32
        ensures { result ≡ offset_of self.now }
    {
        match self.first() {
            Some(first) => first / 64,
            None => 0,
        }
    }

    /// The words from that of the least rank to that of the greatest: bit i of the j-th stands for rank
    /// 64 * (word_offset + j) + i.
    pub fn words(&self, alloc: Global) -> Result<Vec<u64>, AllocError>
        ensures trimmed { IfOk result (λ words. AreWords (offset_of self.now) words.items) }
        ensures ranks { IfOk result (λ words. ranks_in (offset_of self.now) words.items ≡ self.now) }
        ensures list { IfOk result (λ words. words.items ≡ words_of self.now) }
    {
        match &self.held {
            Held::Words(words) => words.words(alloc),
            Held::Runs(runs) => runs.to_words()?.words(alloc),
        }
    }

    /// The set of the same words, the first of which is word `offset` of all: each rank is moved by whole words.
    ///
    /// Fails only if memory runs out.
    pub fn at_word(&self, offset: u32) -> Result<RankSet, AllocError>
        requires { AreWords offset (words_of self.now) }
        ensures { IfOk result (λ moved. moved ≡ ranks_in offset (words_of self.now)) }
    {
        let words = match &self.held {
            Held::Words(words) => words.at_word(offset)?,
            Held::Runs(runs) => runs.to_words()?.at_word(offset)?,
        };
        let mut held = Held::Words(words);
        held.settle();
        Ok(RankSet { held })
    }

    /// The same words without a copy, if the set holds them.
    pub fn held_words(&self) -> Option<&[u64]>
        ensures trimmed { IfSome result (λ words. AreWords (offset_of self.now) words.now) }
        ensures ranks { IfSome result (λ words. ranks_in (offset_of self.now) words.now ≡ self.now) }
        ensures list { IfSome result (λ words. words.now ≡ words_of self.now) }
    {
        match &self.held {
            Held::Words(words) => Some(words.held_words()),
            Held::Runs(_) => None,
        }
    }

    /// Whether all ranks of word `index` are in the set: bit i of it stands for rank 64 * index + i.
    pub fn covers_word(&self, index: u32, word: u64) -> bool
        ensures { result ≡ is_subset (ranks_in index (word ∷ [])) self.now }
    {
        match &self.held {
            Held::Words(words) => words.covers_word(index, word),
            Held::Runs(_) => by_runs::covers_word(self, index, word),
        }
    }
}
