//! Sets of ranks as their longest runs of neighbours, in order.

ghost use Rattle.std.specs.Prelude.{◌≡◌, ℕ, ◌<◌, ◌≤◌, ◌↔◌, true, false, OnOk, OnErr, IfOk, IfSome, IfNone, Some, slice_get, map, ◌++◌};
ghost use Rattle.rank_set.specs.Ranks.{none, has, union, in_order, is_empty, is_subset, size, Has};
ghost use Rattle.rank_set.specs.Runs.{ranks_between, ranks_of_runs, AreRuns, IsRun, runs_of, run_pairs, up_to};
ghost use Rattle.rank_set.specs.Text.{text_of, BeginsWith};

use crate::sorted_runs::{Runs, are_same, count, end, extend_last, find, merged, words_of_runs};
use crate::text::write_run_list;
use crate::word_set::WordSet;
use crate::{RANK_LIMIT, Run};
use std::alloc::{AllocError, Global};
use std::marker::Model;

/// Ranks as runs. Their methods are those of `RankSet`.
#[derive(Drop)]
pub(crate) struct RunSet {
    // In order, with a gap before the next.
    runs: Runs,
}

impl Model for RunSet {
    ghost use Rattle.rank_set.specs.Ranks.{Ranks, coded_ranks};
    ghost use Rattle.rank_set.specs.Runs.{ranks_of_runs, AreRuns, run_pairs};

    ghost Value = { Ranks };

    ghost coded = { coded_ranks };

    ghost view = { λ a. ranks_of_runs (run_pairs a.runs.items) };

    ghost invariant = { λ a. AreRuns 0 (run_pairs a.runs.items) };
}

impl RunSet {
    /// The empty set. It allocates nothing.
    pub(crate) fn new(alloc: Global) -> RunSet
        ensures { result ≡ none }
    {
        RunSet {
            runs: Runs::new(alloc),
        }
    }

    /// The empty set, with room for so many runs.
    pub(crate) fn with_capacity(alloc: Global, runs: usize) -> Result<RunSet, AllocError>
        ensures { IfOk result (λ set. set ≡ none) }
    {
        Ok(RunSet {
            runs: Runs::with_capacity(alloc, runs)?,
        })
    }

    /// The set of runs that are in order, with gaps.
    pub(crate) fn from_runs(runs: Vec<Run>) -> RunSet
        requires { AreRuns 0 (run_pairs runs.items) }
        ensures { result ≡ ranks_of_runs (run_pairs runs.items) }
    {
        RunSet {
            runs: Runs::from_vec(runs),
        }
    }

    /// The set of the ranks of one run. It allocates nothing.
    pub(crate) fn of_run(alloc: Global, run: Run) -> RunSet
        requires not_empty { run.first ≤ run.last }
        requires below_limit { run.last < RANK_LIMIT }
        ensures { result ≡ union none (ranks_between run.first run.last) }
    {
        RunSet {
            runs: Runs::from_buf(alloc, [run]),
        }
    }

    /// The invariant of a set, for the prover: each rank is below `RANK_LIMIT`. It does nothing.
    pub(crate) fn invariant(&self)
        ensures { (r : ℕ) → Has r self.now → r < RANK_LIMIT }
    {
        // for the proof: the invariant of the value
        let _runs = &self.runs;
    }

    /// The allocator of the set.
    pub(crate) fn allocator(&self) -> Global {
        *self.runs.allocator()
    }

    /// How many runs the set has.
    pub(crate) fn len(&self) -> u32 {
        self.runs.len() as u32
    }

    /// How many words the set spans.
    pub(crate) fn span(&self) -> u32 {
        let start = self.first().unwrap_or(0) / 64;
        self.end().div_ceil(64).saturating_sub(start)
    }

    /// A copy of the set.
    pub(crate) fn copy(&self) -> Result<RunSet, AllocError>
        ensures { IfOk result (λ copy. copy ≡ self.now) }
    {
        Ok(RunSet {
            runs: Runs::from_slice(self.allocator(), self.runs.as_slice())?,
        })
    }

    /// Adds the ranks of a run that is not empty and within the limit. On failure the set is unchanged.
    #[inline(always)]
    pub(crate) fn put_run(&mut self, first: u32, last: u32) -> Result<(), AllocError>
        requires not_empty { first ≤ last }
        requires below_limit { last < RANK_LIMIT }
        ensures ok { OnOk result (self.new ≡ union self.old (ranks_between first last)) }
        ensures err { OnErr result (self.new ≡ self.old) }
    {
        let behind = end(self.runs.as_slice());
        if behind < first {
            self.runs.push(Run { first, last })?;
            return Ok(());
        }
        if behind == first && !self.runs.is_empty() {
            extend_last(self.runs.as_mut_slice(), first, last);
            return Ok(());
        }
        self.runs = merged(
            self.allocator(),
            self.runs.as_slice(),
            &[Run { first, last }],
        )?;
        Ok(())
    }

    /// Adds the ranks of the other set. On failure the set is unchanged.
    pub(crate) fn union_into(&mut self, other: &RunSet) -> Result<(), AllocError>
        ensures ok { OnOk result (self.new ≡ union self.old other.now) }
        ensures err { OnErr result (self.new ≡ self.old) }
    {
        self.runs = merged(
            self.allocator(),
            self.runs.as_slice(),
            other.runs.as_slice(),
        )?;
        Ok(())
    }

    /// The ranks of both sets.
    pub(crate) fn united(&self, other: &RunSet) -> Result<RunSet, AllocError>
        ensures { IfOk result (λ all. all ≡ union self.now other.now) }
    {
        Ok(RunSet {
            runs: merged(
                self.allocator(),
                self.runs.as_slice(),
                other.runs.as_slice(),
            )?,
        })
    }

    /// The same ranks as words.
    pub(crate) fn to_words(&self) -> Result<WordSet, AllocError>
        ensures { IfOk result (λ words. words ≡ self.now) }
    {
        words_of_runs(self.allocator(), self.runs.as_slice())
    }

    /// Whether the set has no ranks.
    pub(crate) fn is_empty(&self) -> bool
        ensures { result ≡ is_empty self.now }
    {
        self.runs.is_empty()
    }

    /// The number of ranks in the set.
    pub(crate) fn count(&self) -> u32
        ensures count { result ≡ size self.now }
        ensures within_limit { result ≤ RANK_LIMIT }
    {
        count(self.runs.as_slice())
    }

    /// The least rank, `None` for the empty set.
    pub(crate) fn first(&self) -> Option<u32>
        ensures none { IfNone result (self.now ≡ none) }
        ensures least { IfSome result (λ r. slice_get (in_order self.now) 0 ≡ Some r) }
        ensures below_limit { IfSome result (λ r. r < RANK_LIMIT) }
    {
        let run = self.runs.as_slice().first()?;
        Some(run.first)
    }

    /// A number above each rank.
    pub(crate) fn end(&self) -> u32
        ensures above { (r : ℕ) → has self.now r ≡ true → r < result }
        ensures within_limit { result ≤ RANK_LIMIT }
    {
        end(self.runs.as_slice())
    }

    /// The longest run of neighbours that begins with the least rank at or above `from`. The hint is the index of a run
    /// that may be near; it becomes the index of this one.
    pub(crate) fn next_run(&self, from: u32, hint: &mut usize) -> Option<Run>
        ensures none { IfNone result ((q : ℕ) → from ≤ q → has self.now q ≡ false) }
        ensures run { IfSome result (λ run. IsRun self.now from run.first run.last) }
        ensures below_limit { IfSome result (λ run. run.last < RANK_LIMIT) }
    {
        let runs = self.runs.as_slice();
        let at = find(runs, *hint, from);
        *hint = at;
        if at >= runs.len() {
            return None;
        }
        Some(Run {
            first: runs[at].first.max(from),
            last: runs[at].last,
        })
    }

    /// The longest run among the ranks up to `to` that begins with the least rank at or above `from`.
    pub(crate) fn run_within(&self, from: u32, to: u32, hint: &mut usize) -> Option<Run>
        ensures none { IfNone result ((q : ℕ) → from ≤ q → q ≤ to → has self.now q ≡ false) }
        ensures run { IfSome result (λ run. IsRun (up_to to self.now) from run.first run.last) }
        ensures below_limit { IfSome result (λ run. run.last < RANK_LIMIT) }
    {
        let run = self.next_run(from, hint)?;
        if to < run.first {
            return None;
        }
        Some(Run {
            first: run.first,
            last: run.last.min(to),
        })
    }

    /// Whether the rank is in the set.
    pub(crate) fn contains(&self, r: u32) -> bool
        ensures { result ≡ has self.now r }
    {
        self.run_within(r, r, &mut 0).is_some()
    }

    /// Whether all ranks of a run are in the set.
    pub(crate) fn has_run(&self, run: Run, hint: &mut usize) -> bool
        requires { run.first ≤ run.last }
        ensures { result ≡ is_subset (ranks_between run.first run.last) self.now }
    {
        let runs = self.runs.as_slice();
        let at = find(runs, *hint, run.first);
        *hint = at;
        if at >= runs.len() {
            return false;
        }
        runs[at].first <= run.first && run.last <= runs[at].last
    }

    /// Whether the two sets have the same ranks.
    pub(crate) fn equals(&self, other: &RunSet) -> bool
        ensures { (result ≡ true) ↔ (self.now ≡ other.now) }
    {
        are_same(self.runs.as_slice(), other.runs.as_slice())
    }

    /// All longest runs of neighbours, in order.
    pub(crate) fn runs(&self, alloc: Global) -> Result<Vec<Run>, AllocError>
        ensures { IfOk result (λ runs. map (λ run. (run.first, run.last)) runs.items ≡ runs_of (in_order self.now)) }
    {
        let runs = Vec::from_slice(alloc, self.runs.as_slice())?;
        Ok(runs)
    }

    /// Appends the set's text, as `4:[0-2,7]`. On failure a part of it may stand behind what `out` had.
    pub(crate) fn write_text(&self, out: &mut Vec<u8>) -> Result<(), AllocError>
        ensures ok { OnOk result (out.new.items ≡ out.old.items ++ text_of self.now) }
        ensures kept { BeginsWith out.new.items out.old.items }
    {
        write_run_list(self.runs.as_slice(), out)
    }
}
