//! Which lines list ranks of which nodes.

ghost use Rattle.std.specs.Prelude.{◌≡◌, ◌<◌, ◌≤◌, IfOk, OnOk, length};
ghost use Rattle.rank_set.specs.Ranks.{Has, IsSubset, union};
ghost use Rattle.rank_set.specs.Runs.{ranks_between};
ghost use Rattle.stat_plan.specs.OwnLines.{AreIndexed, AreMarked, HaveSameRanks, ListPlacedRanks, ranks_of_lines};
ghost use Rattle.stat_plan.specs.Samples.{all_ranks};
ghost use Rattle.stat_plan.specs.Tables.{AreRankNodes};

use crate::expected::empty_sets;
use crate::samples::StackLine;
use rank_set::{RankSet, Run};
use rank_table::RankTable;
use std::alloc::{AllocError, Global};

// Adds the numbers of a run of lines to a set of numbers. A number above all that a set may have is as if there were no
// memory for it.
fn mark(numbers: &mut RankSet, lines: Run) -> Result<(), AllocError>
    ensures { OnOk result (numbers.new ≡ union numbers.old (ranks_between lines.first lines.last)) }
{
    match numbers.insert_run(lines.first, lines.last) {
        Ok(()) => Ok(()),
        Err(_) => Err(AllocError),
    }
}

// Marks each node that has one of some ranks with the numbers of these lines. It asks each node.
fn mark_each(
    numbers: &mut [RankSet],
    placed: &[RankSet],
    ranks: &RankSet,
    lines: Run,
) -> Result<(), AllocError>
    requires { length numbers.old ≡ length placed.now }
    ensures { OnOk result (AreMarked placed.now (λ r. Has r ranks.now) (ranks_between lines.first lines.last)
        numbers.old numbers.new) }
{
    for n in 0..placed.len() {
        if !ranks.is_disjoint(&placed[n]) {
            mark(&mut numbers[n], lines)?;
        }
    }
    Ok(())
}

// Marks each node that has one of some ranks with the numbers of these lines. It goes by runs, of the ranks and of the
// table.
fn mark_nodes(
    numbers: &mut [RankSet],
    rank_to_node: &RankTable,
    placed: &[RankSet],
    ranks: &RankSet,
    lines: Run,
) -> Result<(), AllocError>
    requires rank_to_node { AreRankNodes placed.now rank_to_node.now }
    requires same_length { length numbers.old ≡ length placed.now }
    requires placed { IsSubset ranks.now (all_ranks placed.now) }
    ensures { OnOk result (AreMarked placed.now (λ r. Has r ranks.now) (ranks_between lines.first lines.last)
        numbers.old numbers.new) }
{
    let mut from = 0;
    let mut hint = 0;
    while let Some(run) = ranks.next_run_near(from, &mut hint) {
        from = run.first;
        while from <= run.last {
            let part = rank_to_node.run_at(from, run.last + 1);
            mark(&mut numbers[part.number as usize], lines)?;
            from = part.end;
        }
    }
    Ok(())
}

// The end of the lines that follow each other from `first` on and list the same ranks.
fn end_of_same(lines: &[StackLine], first: u32, count: u32) -> u32
    requires count { count ≡ length lines.now }
    requires first { first < count }
    ensures after { first < result }
    ensures within { result ≤ count }
    ensures same { HaveSameRanks (ranks_of_lines lines.now) first result }
{
    let ranks = &lines[first as usize].ranks;
    let mut end = first + 1;
    while end < count && lines[end as usize].ranks.equals(ranks) {
        end += 1;
    }
    end
}

/// By node number, the numbers of the lines that list ranks of the node. Lines that follow each other and list the same
/// ranks are noted at once, so that many such lines cost as little as one.
pub fn line_numbers(
    alloc: Global,
    placed: &[RankSet],
    rank_to_node: &RankTable,
    lines: &[StackLine],
) -> Result<Vec<RankSet>, AllocError>
    requires rank_to_node { AreRankNodes placed.now rank_to_node.now }
    requires lines { ListPlacedRanks placed.now lines.now }
    ensures { IfOk result (λ numbers. AreIndexed placed.now (ranks_of_lines lines.now) numbers.items) }
{
    let Ok(count) = u32::try_from(lines.len()) else {
        return Err(AllocError);
    };
    let mut numbers = empty_sets(alloc, placed.len())?;
    let mut first = 0;
    while first < count {
        let end = end_of_same(lines, first, count);
        let run = Run {
            first,
            last: end - 1,
        };
        let ranks = &lines[first as usize].ranks;
        // This costs as much as there are nodes, or ranks, whichever are fewer.
        if placed.len() <= ranks.count() as usize {
            mark_each(&mut numbers, placed, ranks, run)?;
        } else {
            mark_nodes(&mut numbers, rank_to_node, placed, ranks, run)?;
        }
        first = end;
    }
    Ok(numbers)
}
