//! What is left of a tree where some of its ends are kept.

ghost use Rattle.std.specs.Prelude.{◌≡◌, ◌≢◌, ◌≤◌, ◌<◌, ◌+◌, ◌-◌, ◌++◌, [], ◌∷◌, cond, length, take, IfOk, IsTrue, OnOk};
ghost use Rattle.std.specs.FinMap as finmap;
ghost use Rattle.rank_set.specs.Ranks.{Ranks, is_subset, none, union};
ghost use Rattle.call_path.specs.Pairs.{Pairs};
ghost use Rattle.call_path.specs.Path.{Path};
ghost use Rattle.prefix_tree.specs.Tree.{IsTree, added, count_below, tree_of};
ghost use Rattle.tree_view.specs.Views.{ranks_with};
ghost use Rattle.tree_view.specs.Selections.{LieIn, edited, ends_in, place_in, place_of, with_ends};

use call_path::{CallPath, PREFIX_LIMIT, PathBuilder};
use prefix_tree::{PrefixTree, Row, TreeError};
use rank_set::RankSet;
use std::alloc::{AllocError, Global};
use std::mem;

/// Which ranks end at a row.
#[derive(Clone, Copy)]
pub(crate) enum Selection<'a> {
    // Those that ended there before and are among these.
    Ranks(&'a RankSet),
    // Those that ended there before, if the row's path has the frame.
    Frame(&'a str),
    // All that pass the row, if its path ends with its first such frame; none, if it has the frame above; and else
    // those that ended there before.
    Fold(&'a str),
}

// How many frames come before the first that is `wanted`, in a path of `depth` frames that ends with this one; `depth`
// if none is. Before, it was that number in a path that the others are the first of.
fn place_after(before: usize, depth: usize, frame: &str, wanted: &str) -> usize
    requires { 0 < depth }
    ensures { (p : Path) → depth ≤ length p + 1 → before ≡ place_of wanted.now p
        → result ≡ place_of wanted.now (take (depth - 1) p ++ frame.now ∷ []) }
{
    if before < depth - 1 {
        before
    } else if frame == wanted {
        depth - 1
    } else {
        depth
    }
}

impl Selection<'_> {
    // How many frames come before the first that is sought, in the path of a row; all of them if none is. Before, it
    // was that number in the path of the row above, or of one that goes on from it.
    fn place_after(&self, before: usize, row: &Row<'_>) -> usize
        requires { 0 < row.now.depth }
        ensures { (p : Path) → row.now.depth ≤ length p + 1 → before ≡ place_in self.now p
            → result ≡ place_in self.now (take (row.now.depth - 1) p ++ row.now.frame.now ∷ []) }
    {
        match self {
            Selection::Ranks(_) => row.depth,
            Selection::Frame(frame) => place_after(before, row.depth, row.frame, frame),
            Selection::Fold(frame) => place_after(before, row.depth, row.frame, frame),
        }
    }

    // The ranks that end at a row.
    fn ends_of(&self, alloc: Global, place: usize, row: &Row<'_>) -> Result<RankSet, AllocError>
        requires { 0 < row.now.depth }
        ensures { IfOk result (λ ends. (p : Path) → length p ≡ row.now.depth → place ≡ place_in self.now p
            → ends ≡ ends_in self.now p (row.now.label.now, row.now.ends.now)) }
    {
        match self {
            Selection::Ranks(ranks) => row.ends.intersection(ranks),
            Selection::Frame(_) => {
                if place < row.depth {
                    row.ends.copy()
                } else {
                    Ok(RankSet::new(alloc))
                }
            }
            Selection::Fold(_) => {
                if place == row.depth {
                    row.ends.copy()
                } else if place == row.depth - 1 {
                    row.label.copy()
                } else {
                    Ok(RankSet::new(alloc))
                }
            }
        }
    }
}

// Adds a path that each of some ranks was seen in, if there are some.
fn add_ends<T: PrefixTree>(
    alloc: Global,
    tree: &mut T,
    ends: &RankSet,
    frames: &mut PathBuilder,
) -> Result<(), AllocError>
    requires path { 0 < length frames.old }
    requires covered { IsTrue (is_subset ends.now (T.tree tree.old).coverage) }
    requires room { count_below (with_ends (T.tree tree.old) ends.now frames.old) ≤ PREFIX_LIMIT }
    ensures tree { OnOk result (T.tree tree.new ≡ with_ends (T.tree tree.old) ends.now frames.old) }
    ensures path { frames.new ≡ frames.old }
{
    if ends.is_empty() {
        return Ok(());
    }
    let path = mem::replace(frames, PathBuilder::new(alloc)).into_path();
    let added = add_path(tree, ends, &path);
    *frames = path.into_builder();
    added
}

// Adds a path that each of some ranks was seen in.
fn add_path<T: PrefixTree>(tree: &mut T, ends: &RankSet, path: &CallPath) -> Result<(), AllocError>
    requires some { ends.now ≢ none }
    requires covered { IsTrue (is_subset ends.now (T.tree tree.old).coverage) }
    requires room { count_below (added (T.tree tree.old) ends.now path.now) ≤ PREFIX_LIMIT }
    ensures { OnOk result (T.tree tree.new ≡ added (T.tree tree.old) ends.now path.now) }
{
    match tree.add_or_clear(ends, path) {
        Ok(()) => Ok(()),
        Err(TreeError::OutOfMemory) => Err(AllocError),
        Err(TreeError::TooManyPrefixes) => unreachable!(),
    }
}

/// What is left of a tree where these ends are kept, over some covered ranks.
pub(crate) fn selected<T: PrefixTree>(
    alloc: Global,
    tree: &T,
    selection: &Selection<'_>,
    covered: &RankSet,
) -> Result<T, AllocError>
    requires { IsTree (T.tree tree.now) → LieIn (ends_in selection.now) (T.tree tree.now) covered.now }
    ensures { IfOk result
        (λ kept. T.tree kept
        ≡ tree_of (edited (ends_in selection.now) (finmap.entries (T.tree tree.now).below)) covered.now) }
{
    let mut kept = T::empty(alloc);
    kept.cover(covered)?;
    let mut frames = PathBuilder::new(alloc);
    let mut place = 0;
    let mut at = tree.cursor(alloc)?;
    while let Some(row) = tree.next_row(&mut at) {
        frames.cut(row.depth - 1);
        frames.push(row.frame)?;
        place = selection.place_after(place, &row);
        let ends = selection.ends_of(alloc, place, &row)?;
        add_ends(alloc, &mut kept, &ends, &mut frames)?;
    }
    Ok(kept)
}

/// The ranks that were seen in a path with a frame.
pub(crate) fn ranks_in_frame<T: PrefixTree>(
    alloc: Global,
    tree: &T,
    frame: &str,
) -> Result<RankSet, AllocError>
    ensures { IfOk result
        (λ ranks. (P : Pairs) (C : Ranks) → T.tree tree.now ≡ tree_of P C → ranks ≡ ranks_with frame.now P C) }
{
    let mut ranks = RankSet::new(alloc);
    let mut place = 0;
    let mut at = tree.cursor(alloc)?;
    while let Some(row) = tree.next_row(&mut at) {
        place = place_after(place, row.depth, row.frame, frame);
        add_if(&mut ranks, place < row.depth, row.ends)?;
    }
    Ok(ranks)
}

// Adds these ranks, if they are wanted.
fn add_if(ranks: &mut RankSet, wanted: bool, some: &RankSet) -> Result<(), AllocError>
    ensures { OnOk result (ranks.new ≡ cond wanted (union ranks.old some.now) ranks.old) }
{
    if wanted {
        ranks.union_into(some)
    } else {
        Ok(())
    }
}
