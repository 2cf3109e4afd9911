//! The tree of a wave's samples of some ranks, by lines that list these ranks alone.

ghost use Rattle.std.specs.Prelude.{◌≡◌, ◌≤◌, IfOk, OnOk};
ghost use Rattle.std.specs.List.{AllByRecursion};
ghost use Rattle.rank_set.specs.Ranks.{IsSubset, Ranks};
ghost use Rattle.call_path.specs.Pairs.{Pairs};
ghost use Rattle.prefix_tree.specs.Tree.{count_below, tree_of};
ghost use Rattle.stat_plan.specs.Samples.{samples_of, wave_lines};
ghost use Rattle.stat_plan.specs.StackLines.{PathIndicesInRange, line_of, lines_of};
ghost use Rattle.merge_filter.specs.Gathering.{HasRoomFor, TakesLine, with_pending};

use call_path::CallPath;
use overlay_setup::WaveTimes;
use prefix_tree::{PrefixTree, TreeError};
use rank_set::RankSet;
use stat_plan::StackLine;
use std::alloc::{AllocError, Global};

// Ranks that are still to be added to a tree, with a path.
#[derive(Drop)]
struct Pending {
    // The number of the path.
    path: u32,
    ranks: RankSet,
}

// Adds to a tree what is still to be added.
fn add_pending<T: PrefixTree>(
    tree: &mut T,
    paths: &[CallPath],
    pending: &Pending,
) -> Result<(), AllocError>
    requires { HasRoomFor (T.tree tree.old) paths.now pending.now }
    ensures { OnOk result
        ((P : Pairs) (C : Ranks) → T.tree tree.old ≡ tree_of P C
        → T.tree tree.new ≡ tree_of (with_pending P paths.now pending.now) C) }
{
    if pending.ranks.is_empty() {
        return Ok(());
    }
    let path = &paths[pending.path as usize];
    match tree.add_or_clear(&pending.ranks, path) {
        Ok(()) => Ok(()),
        Err(TreeError::OutOfMemory) => Err(AllocError),
        Err(TreeError::TooManyPrefixes) => unreachable!(),
    }
}

// Takes a line. Its ranks join those that are still to be added, if the path is theirs; else they are the next that are
// to be added.
fn take_line<T: PrefixTree>(
    tree: &mut T,
    paths: &[CallPath],
    pending: &mut Pending,
    line: &StackLine,
) -> Result<(), AllocError>
    requires { HasRoomFor (T.tree tree.old) paths.now pending.old }
    ensures { OnOk result
        ((P : Pairs) (C : Ranks) → T.tree tree.old ≡ tree_of P C
        → TakesLine P C paths.now (line_of paths.now line.now) line.now.path pending.old pending.new
        (T.tree tree.new)) }
{
    if line.path == pending.path {
        pending.ranks.union_into(&line.ranks)?;
        return Ok(());
    }
    add_pending(tree, paths, pending)?;
    pending.path = line.path;
    pending.ranks = line.ranks.copy()?;
    Ok(())
}

/// The tree of a wave's samples of some ranks, of which alone there are lines. It takes the least time where they come
/// in the order of their paths.
pub fn own_tree<T: PrefixTree>(
    alloc: Global,
    lines: &[StackLine],
    paths: &[CallPath],
    times: WaveTimes,
    own: &RankSet,
) -> Result<T, AllocError>
    requires numbered { PathIndicesInRange paths.now lines.now }
    requires own { AllByRecursion (λ line. IsSubset line.ranks own.now) lines.now }
    requires within { count_below
        (tree_of (samples_of (wave_lines times.samples times.wave (lines_of paths.now lines.now))) own.now) ≤ 2048 }
    ensures { IfOk result
        (λ tree. T.tree tree
        ≡ tree_of (samples_of (wave_lines times.samples times.wave (lines_of paths.now lines.now))) own.now) }
{
    let mut tree = T::empty(alloc);
    tree.cover(own)?;
    let mut pending = Pending {
        path: 0,
        ranks: RankSet::new(alloc),
    };
    for line in lines {
        if times.contains(line.time) {
            take_line(&mut tree, paths, &mut pending, line)?;
        }
    }
    add_pending(&mut tree, paths, &pending)?;
    Ok(tree)
}
