//! The parts of the daemons: what the numbers of their ranks count for.

ghost use Rattle.std.specs.Prelude.{◌≡◌, ◌<◌, ◌≤◌, ◌+◌, ◌^◌, ℕ, ℤ, true, Some, IfOk};
ghost use lib.Signed.{mag};
ghost use Rattle.rank_set.specs.Ranks.{has, size};
ghost use Rattle.rank_sums.specs.Folds.{part_of};
ghost use Rattle.rank_sums.specs.Parts.{PartsFit, counted_times, part_below};
ghost use Rattle.rank_sums.specs.PartPlans.{all_parts};

use crate::fold::{Fold, joined, narrowed, times};
use rank_set::{RANK_LIMIT, RankSet, Run};
use stat_plan::Plan;
use std::alloc::{AllocError, Global};
use value_text::Values;

// What some ranks of the same number count for, or of none.
fn counted_times(fold: Fold, number: Option<i64>, count: u32) -> Option<i128>
    ensures { result ≡ counted_times fold number count }
{
    let number = number?;
    match fold {
        Fold::Count => times(fold, 1, count),
        Fold::Sum | Fold::Min | Fold::Max => times(fold, number, count),
    }
}

// What the ranks below the end of a run count for, where `part` is what those before the run count for.
fn with_run(
    values: &Values,
    fold: Fold,
    ranks: &RankSet,
    run: Run,
    part: Option<i128>,
) -> Option<i128>
    requires within { (q : ℕ) → run.first ≤ q → q ≤ run.last → has ranks.now q ≡ true }
    requires below_limit { (run.first ≤ run.last) × (run.last < RANK_LIMIT) }
    requires size { size ranks.now ≤ RANK_LIMIT }
    requires part { part ≡ part_below fold values.now ranks.now run.first }
    ensures { result ≡ part_below fold values.now ranks.now (run.last + 1) }
{
    values.invariant();
    let end = run.last + 1;
    let mut part = part;
    let mut from = run.first;
    while from < end {
        let own = values.run_at(from, end);
        part = joined(fold, part, counted_times(fold, own.number, own.end - from));
        from = own.end;
    }
    part
}

// What the numbers of some ranks count for.
fn part_of(values: &Values, fold: Fold, ranks: &RankSet) -> Option<i64>
    ensures value { result ≡ part_of fold values.now ranks.now }
    ensures fits { (z : ℤ) → result ≡ Some z → mag z < 2 ^ 63 }
{
    values.invariant();
    // for the proof: there are no more ranks than there can be
    let _ = ranks.count();
    let mut part = None;
    let mut from = 0;
    let mut hint = 0;
    while let Some(run) = ranks.next_run_near(from, &mut hint) {
        part = with_run(values, fold, ranks, run, part);
        from = run.last + 1;
    }
    narrowed(part)
}

/// The part of each node, by its number.
pub fn parts_of(
    alloc: Global,
    plan: &Plan,
    values: &Values,
    fold: Fold,
) -> Result<Vec<Option<i64>>, AllocError>
    ensures parts { IfOk result (λ parts. parts.items ≡ all_parts plan.now values.now fold) }
    ensures fit { IfOk result (λ _. PartsFit plan.now values.now fold) }
{
    plan.invariant();
    let mut parts = Vec::with_capacity(alloc, plan.nodes() as usize)?;
    for n in 0..plan.nodes() {
        parts.push(part_of(values, fold, plan.ranks(n)))?;
    }
    Ok(parts)
}
