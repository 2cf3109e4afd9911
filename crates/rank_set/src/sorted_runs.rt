//! Rank sets as lists of their longest runs, in order.

ghost use Rattle.std.specs.Prelude.{◌≡◌, ℕ, ◌<◌, ◌≤◌, ◌+◌, ◌-◌, ◌++◌, ◌↔◌, true, OnOk, IfOk, length, get_or};
ghost use Rattle.rank_set.specs.Ranks.{has, union, size};
ghost use Rattle.rank_set.specs.Runs.{ranks_between, ranks_of_both, ranks_of_runs, AreRuns, IsRunInRange, run_pairs, runs_with};

use crate::word_set::WordSet;
use crate::{RANK_LIMIT, Run};
use smallvec::SmallVec;
use std::alloc::{AllocError, Global};

/// The runs of a set: a single one is stored in the set itself, without an allocation.
pub(crate) type Runs = SmallVec<Run, 1>;

/// The index of the first run that ends at a rank or above it, or the number of runs where none does. The hint is an
/// index that may be near. Most often it is that of the run before the one that is looked for.
#[inline(always)]
pub(crate) fn find(runs: &[Run], hint: usize, from: u32) -> usize
    ensures within { result ≤ length runs.now }
    ensures before { 0 < result → (get_or (run_pairs runs.now) (result - 1) (0, 0)).1 < from }
    ensures here { result < length runs.now → from ≤ (get_or (run_pairs runs.now) result (0, 0)).1 }
{
    if hint < runs.len() && runs[hint].last < from {
        let next = hint + 1;
        if next == runs.len() || from <= runs[next].last {
            return next;
        }
        return search(runs, next + 1, from);
    }
    search(runs, hint, from)
}

// The same, in as many steps as the distance has binary digits.
#[inline(never)]
fn search(runs: &[Run], hint: usize, from: u32) -> usize
    ensures within { result ≤ length runs.now }
    ensures before { 0 < result → (get_or (run_pairs runs.now) (result - 1) (0, 0)).1 < from }
    ensures here { result < length runs.now → from ≤ (get_or (run_pairs runs.now) result (0, 0)).1 }
{
    let mut low = 0;
    if 0 < hint && hint <= runs.len() && runs[hint - 1].last < from {
        low = hint;
    }
    let mut high = runs.len();
    let mut stride = 0;
    while low < high {
        let ahead = stride.min((high - low) / 2);
        if runs[low + ahead].last < from {
            low += ahead + 1;
            stride = 2 * ahead + 1;
        } else {
            high = low + ahead;
        }
    }
    low
}

// Joins the next run, which begins no earlier, to the pending one where they overlap or touch; else the pending run is
// put behind the others, and the next one is pending.
fn join(done: &mut Runs, pending: Run, next: Run) -> Result<Run, AllocError>
    requires runs { AreRuns 0 (runs_with done.old.items pending) }
    requires next { IsRunInRange next.first next.last }
    requires order { pending.first ≤ next.first }
    ensures runs { IfOk result (λ p. AreRuns 0 (runs_with done.new.items p)) }
    ensures order { IfOk result (λ p. p.first ≤ next.first) }
    ensures ranks { IfOk result (λ p. ranks_of_runs (runs_with done.new.items p)
        ≡ union (ranks_of_runs (runs_with done.old.items pending))
        (ranks_between next.first next.last)) }
{
    if next.first <= pending.last + 1 {
        return Ok(Run {
            first: pending.first,
            last: pending.last.max(next.last),
        });
    }
    done.push(pending)?;
    Ok(next)
}

// Joins all runs of a list, which begin no earlier than the pending one. It gives the run that is pending then.
fn join_all(done: &mut Runs, pending: Run, rest: &[Run]) -> Result<Run, AllocError>
    requires runs { AreRuns 0 (runs_with done.old.items pending) }
    requires rest { AreRuns pending.first (run_pairs rest.now) }
    ensures runs { IfOk result (λ p. AreRuns 0 (runs_with done.new.items p)) }
    ensures ranks { IfOk result (λ p. ranks_of_runs (runs_with done.new.items p)
        ≡ union (ranks_of_runs (runs_with done.old.items pending))
        (ranks_of_runs (run_pairs rest.now))) }
{
    let mut last = pending;
    for run in rest {
        last = join(done, last, *run)?;
    }
    Ok(last)
}

// Joins the runs of two lists, which begin no earlier than the pending one, in the order of their first ranks.
fn join_both(done: &mut Runs, pending: Run, runs: &[Run], others: &[Run]) -> Result<Run, AllocError>
    requires done { AreRuns 0 (runs_with done.old.items pending) }
    requires runs { AreRuns pending.first (run_pairs runs.now) }
    requires others { AreRuns pending.first (run_pairs others.now) }
    ensures done { IfOk result (λ p. AreRuns 0 (runs_with done.new.items p)) }
    ensures ranks { IfOk result (λ p. ranks_of_runs (runs_with done.new.items p)
        ≡ union (ranks_of_runs (runs_with done.old.items pending))
        (ranks_of_both (run_pairs runs.now) (run_pairs others.now))) }
{
    let mut last = pending;
    let mut i = 0;
    let mut j = 0;
    while i < runs.len() && j < others.len() {
        if runs[i].first <= others[j].first {
            last = join(done, last, runs[i])?;
            i += 1;
        } else {
            last = join(done, last, others[j])?;
            j += 1;
        }
    }
    if i < runs.len() {
        let all = join_all(done, last, &runs[i..])?;
        return Ok(all);
    }
    let all = join_all(done, last, &others[j..])?;
    Ok(all)
}

// Joins two lists behind the runs that are done.
fn join_behind(done: &mut Runs, runs: &[Run], others: &[Run]) -> Result<(), AllocError>
    requires runs { AreRuns 0 (run_pairs (done.old.items ++ runs.now)) }
    requires others { AreRuns 0 (run_pairs (done.old.items ++ others.now)) }
    ensures runs { OnOk result (AreRuns 0 (run_pairs done.new.items)) }
    ensures ranks { OnOk result (ranks_of_runs (run_pairs done.new.items)
        ≡ union (ranks_of_runs (run_pairs done.old.items))
        (ranks_of_both (run_pairs runs.now) (run_pairs others.now))) }
{
    let Some((first, later)) = runs.split_first() else {
        done.extend_from_slice(others)?;
        return Ok(());
    };
    let Some((other, others_later)) = others.split_first() else {
        done.extend_from_slice(runs)?;
        return Ok(());
    };
    let last = if first.first <= other.first {
        join_both(done, *first, later, others)?
    } else {
        join_both(done, *other, runs, others_later)?
    };
    done.push(last)?;
    Ok(())
}

// How many runs begin at a number or below it.
fn begun(runs: &[Run], at: u32) -> usize
    requires runs { AreRuns 0 (run_pairs runs.now) }
    requires limit { at ≤ RANK_LIMIT }
    ensures within { result ≤ length runs.now }
    ensures behind { result < length runs.now → at < (get_or (run_pairs runs.now) result (0, 0)).0 }
{
    let index = find(runs, 0, at + 1);
    if index < runs.len() && runs[index].first <= at {
        return index + 1;
    }
    index
}

/// The runs of the ranks of both lists. Those of the first list that lie before or behind all of the second are copied
/// as they stand.
#[inline(never)]
pub(crate) fn merged(alloc: Global, runs: &[Run], others: &[Run]) -> Result<Runs, AllocError>
    requires runs { AreRuns 0 (run_pairs runs.now) }
    requires others { AreRuns 0 (run_pairs others.now) }
    ensures runs { IfOk result (λ all. AreRuns 0 (run_pairs all.items)) }
    ensures ranks { IfOk result (λ all. ranks_of_runs (run_pairs all.items)
        ≡ union (ranks_of_runs (run_pairs runs.now)) (ranks_of_runs (run_pairs others.now))) }
{
    let Some((other, _)) = others.split_first() else {
        let all = Runs::from_slice(alloc, runs)?;
        return Ok(all);
    };
    let (before, rest) = runs.split_at(find(runs, 0, other.first.saturating_sub(1)));
    let (among, behind) = rest.split_at(begun(rest, end(others)));
    let mut done = Runs::with_capacity(alloc, (runs.len() + 1).max(others.len()))?;
    done.extend_from_slice(before)?;
    join_behind(&mut done, among, others)?;
    done.extend_from_slice(behind)?;
    Ok(done)
}

/// The number behind the last rank, 0 for no runs.
#[inline(always)]
pub(crate) fn end(runs: &[Run]) -> u32
    requires { AreRuns 0 (run_pairs runs.now) }
    ensures above { (r : ℕ) → has (ranks_of_runs (run_pairs runs.now)) r ≡ true → r < result }
    ensures last { 0 < length runs.now
        → (get_or (run_pairs runs.now) (length runs.now - 1) (0, 0)).1 + 1 ≡ result }
    ensures within_limit { result ≤ RANK_LIMIT }
{
    if runs.is_empty() {
        return 0;
    }
    runs[runs.len() - 1].last + 1
}

/// Adds the ranks of a run that begins right behind the last.
pub(crate) fn extend_last(runs: &mut [Run], first: u32, last: u32)
    requires runs { AreRuns 0 (run_pairs runs.old) }
    requires some { 0 < length runs.old }
    requires touches { (get_or (run_pairs runs.old) (length runs.old - 1) (0, 0)).1 + 1 ≡ first }
    requires next { IsRunInRange first last }
    ensures runs { AreRuns 0 (run_pairs runs.new) }
    ensures ranks { ranks_of_runs (run_pairs runs.new)
        ≡ union (ranks_of_runs (run_pairs runs.old)) (ranks_between first last) }
{
    let at = runs.len() - 1;
    runs[at] = Run {
        first: runs[at].first,
        last,
    };
}

/// Whether the two lists have the same runs: then they have the same ranks.
pub(crate) fn are_same(runs: &[Run], others: &[Run]) -> bool
    requires runs { AreRuns 0 (run_pairs runs.now) }
    requires others { AreRuns 0 (run_pairs others.now) }
    ensures { (result ≡ true) ↔ (ranks_of_runs (run_pairs runs.now) ≡ ranks_of_runs (run_pairs others.now)) }
{
    if runs.len() != others.len() {
        return false;
    }
    for (i, run) in runs.iter().enumerate() {
        if run.first != others[i].first || run.last != others[i].last {
            return false;
        }
    }
    true
}

/// The number of ranks in the runs.
pub(crate) fn count(runs: &[Run]) -> u32
    requires { AreRuns 0 (run_pairs runs.now) }
    ensures count { result ≡ size (ranks_of_runs (run_pairs runs.now)) }
    ensures within_limit { result ≤ RANK_LIMIT }
{
    let mut total = 0;
    for run in runs {
        total += run.last - run.first + 1;
    }
    total
}

// Adds the first and the last rank of runs to words, so that there is room for all between them.
fn make_room(words: &mut WordSet, runs: &[Run]) -> Result<(), AllocError>
    requires { AreRuns 0 (run_pairs runs.now) }
    ensures { OnOk result (union words.new (ranks_of_runs (run_pairs runs.now))
        ≡ union words.old (ranks_of_runs (run_pairs runs.now))) }
{
    let Some((first, _)) = runs.split_first() else {
        return Ok(());
    };
    words.put_run(first.first, first.first)?;
    let last = end(runs) - 1;
    words.put_run(last, last)?;
    Ok(())
}

/// The ranks of the runs as words.
#[inline(never)]
pub(crate) fn words_of_runs(alloc: Global, runs: &[Run]) -> Result<WordSet, AllocError>
    requires { AreRuns 0 (run_pairs runs.now) }
    ensures { IfOk result (λ words. words ≡ ranks_of_runs (run_pairs runs.now)) }
{
    let mut words = WordSet::new(alloc);
    make_room(&mut words, runs)?;
    for run in runs {
        words.put_run(run.first, run.last)?;
    }
    Ok(words)
}
