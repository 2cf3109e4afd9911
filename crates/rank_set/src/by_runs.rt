//! What is asked of two sets run by run, however they are held.

ghost use Rattle.std.specs.Prelude.{◌≡◌, ◌≤◌, ◌<◌, ◌↔◌, true, false, not, OnOk, IfOk, [], ◌∷◌};
ghost use Rattle.rank_set.specs.Ranks.{has, is_empty, is_subset, those, union};
ghost use Rattle.rank_set.specs.Runs.{ranks_between, IsRunInRange};
ghost use Rattle.rank_set.specs.Words.{ranks_in};

use crate::held::Held;
use crate::run_set::RunSet;
use crate::words::next_run;
use crate::{RankSet, Run, WORD_LIMIT};
use std::alloc::AllocError;

/// Whether all ranks of word `index` are in the set.
pub(crate) fn covers_word(set: &RankSet, index: u32, word: u64) -> bool
    ensures { result ≡ is_subset (ranks_in index (word ∷ [])) set.now }
{
    if index >= WORD_LIMIT {
        // for the proof: each rank is below the limit
        set.invariant();
        return word == 0;
    }
    let mut hint = 0;
    let mut from = 0;
    while let Some(run) = next_run(index, &[word], from) {
        if !set.has_run(run, &mut hint) {
            return false;
        }
        from = run.last + 1;
    }
    true
}

/// Whether each rank of the first set is in the second.
#[inline(never)]
pub(crate) fn is_subset(set: &RankSet, other: &RankSet) -> bool
    ensures { result ≡ is_subset set.now other.now }
{
    // The set with fewer runs is the shorter way.
    let by_gaps = match (&set.held, &other.held) {
        (Held::Words(_), _) => true,
        (Held::Runs(runs), Held::Runs(others)) => others.len() < runs.len(),
        (Held::Runs(_), Held::Words(_)) => false,
    };
    if by_gaps {
        has_no_rank_in_gaps(set, other)
    } else {
        has_runs_in(set, other)
    }
}

// The same, by the runs of the first set: whether the second has each of them.
fn has_runs_in(set: &RankSet, other: &RankSet) -> bool
    ensures { result ≡ is_subset set.now other.now }
{
    let (mut hint, mut other_hint) = (0, 0);
    let mut from = 0;
    while let Some(run) = set.next_run_near(from, &mut hint) {
        if !other.has_run(run, &mut other_hint) {
            return false;
        }
        from = run.last + 1;
    }
    true
}

// The same, by the gaps of the second set: whether the first has no rank in them.
fn has_no_rank_in_gaps(set: &RankSet, other: &RankSet) -> bool
    ensures { result ≡ is_subset set.now other.now }
{
    let end = set.end();
    let (mut hint, mut other_hint) = (0, 0);
    let mut from = 0;
    while let Some(run) = other.next_run_near(from, &mut other_hint) {
        if from < run.first && set.run_within(from, run.first - 1, &mut hint).is_some() {
            return false;
        }
        from = run.last + 1;
    }
    set.run_within(from, end, &mut hint).is_none()
}

/// Whether the two sets have the same ranks.
#[inline(never)]
pub(crate) fn equals(set: &RankSet, other: &RankSet) -> bool
    ensures { (result ≡ true) ↔ (set.now ≡ other.now) }
{
    if let (Held::Runs(runs), Held::Runs(others)) = (&set.held, &other.held) {
        return runs.equals(others);
    }
    is_subset(set, other) && is_subset(other, set)
}

// Whether the first set has the least rank of the second.
fn has_least_of(set: &RankSet, other: &RankSet) -> bool
    ensures { result ≡ true → is_empty (those (λ r. has other.now r) set.now) ≡ false }
{
    let Some(least) = other.first() else {
        return false;
    };
    set.contains(least)
}

/// Whether no rank of the first set is in the second. The one with runs goes first: it has fewer of them.
#[inline(never)]
pub(crate) fn is_disjoint(set: &RankSet, other: &RankSet) -> bool
    ensures { result ≡ is_empty (those (λ r. has other.now r) set.now) }
{
    // Most sets that meet are those of a line and of a node of its ranks.
    if has_least_of(set, other) {
        return false;
    }
    match &set.held {
        Held::Words(_) => meets_no_run(other, set),
        Held::Runs(_) => meets_no_run(set, other),
    }
}

// The same, by the runs of the first set: whether the second has no rank in any of them.
fn meets_no_run(set: &RankSet, other: &RankSet) -> bool
    ensures { result ≡ is_empty (those (λ r. has other.now r) set.now) }
{
    let (mut hint, mut other_hint) = (0, 0);
    let mut from = 0;
    while let Some(run) = set.next_run_near(from, &mut hint) {
        if other
            .run_within(run.first, run.last, &mut other_hint)
            .is_some()
        {
            return false;
        }
        from = run.last + 1;
    }
    true
}

// Adds the ranks of a run that the other set does not have.
fn put_gaps(run: Run, other: &RankSet, hint: &mut usize, out: &mut RunSet) -> Result<(), AllocError>
    requires { IsRunInRange run.first run.last }
    ensures { OnOk result
        (out.new ≡ union out.old (those (λ r. not (has other.now r)) (ranks_between run.first run.last))) }
{
    let mut from = run.first;
    while let Some(hole) = other.run_within(from, run.last, hint) {
        if from < hole.first {
            out.put_run(from, hole.first - 1)?;
        }
        from = hole.last + 1;
    }
    if from <= run.last {
        out.put_run(from, run.last)?;
    }
    Ok(())
}

/// The ranks of the first set that are not in the second.
pub(crate) fn difference(set: &RankSet, other: &RankSet) -> Result<RankSet, AllocError>
    ensures { IfOk result (λ rest. rest ≡ those (λ r. not (has other.now r)) set.now) }
{
    let mut rest = RunSet::new(set.allocator());
    let (mut hint, mut other_hint) = (0, 0);
    let mut from = 0;
    while let Some(run) = set.next_run_near(from, &mut hint) {
        put_gaps(run, other, &mut other_hint, &mut rest)?;
        from = run.last + 1;
    }
    let mut held = Held::Runs(rest);
    held.settle();
    Ok(RankSet { held })
}
