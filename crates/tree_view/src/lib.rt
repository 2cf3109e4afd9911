//! Views of a tree: the tree of some ranks alone, of the paths that have a frame, of the paths cut at a frame, or of a
//! few ranks of each class.
//!
//! A contract sees a view as what it keeps of pairs of a rank and a path, and of a coverage: `viewed_pairs` and
//! `viewed_ranks`. The answer is the tree of what is kept, whatever pairs the given tree is of. So a view of a merged
//! tree is the tree of the viewed samples. No view changes a path but by a cut, and none has more rows than its tree:
//! each call fails only when it is out of memory.
//!
//! ```text
//! let waiting = view_frame(alloc, &tree, "MPI_Barrier")?;
//! let folded = view_fold(alloc, &tree, "MPI_Barrier")?;
//! let some = view_reps(alloc, &tree, 3)?;
//! let wanted = View::read(alloc, ViewBy::Ranks, "0-3,17")?;
//! let few = view_tree(alloc, &tree, &wanted)?;
//! ```
//!
//! A view walks the tree's rows once, and adds to a new tree at each row where paths end in the view. The definitions
//! are in `specs/Views.antt`, and worked examples in `specs/Rows.antt`; `specs/Selections.antt` says what ends at each
//! row.
#![tactic(auto)]

ghost use Rattle.std.specs.Prelude.{◌≡◌, IfOk};
ghost use Rattle.rank_set.specs.Ranks.{Ranks, has, those};
ghost use Rattle.call_path.specs.Pairs.{HasNoEmptyPath, Pairs};
ghost use Rattle.prefix_tree.specs.Tree.{pairs_of, tree_of};
ghost use Rattle.tree_view.specs.Views.{TreeView, folded, ranks_with, reps_of, viewed_pairs, viewed_tree, with_frame};
ghost use Rattle.tree_view.specs.Reading.{tree_view};

use equiv_class::classes;
use prefix_tree::PrefixTree;
use rank_set::RankSet;
use representatives::least_ranks;
use selection::{Selection, ranks_in_frame, selected};
use std::alloc::{AllocError, Global};

mod reading;
mod representatives;
mod selection;

pub use reading::{View, ViewBy, ViewError};

/// The most ranks of a class that [`View::read`] takes as a number of representatives.
pub const REPS_LIMIT: u32 = 1_000;

/// The tree of some ranks alone: the same pairs, over the covered ranks that are among these.
pub fn view_ranks<T: PrefixTree>(alloc: Global, tree: &T, ranks: &RankSet) -> Result<T, AllocError>
    ensures { IfOk result
        (λ kept. (P : Pairs) (C : Ranks) → T.tree tree.now ≡ tree_of P C
        → T.tree kept ≡ tree_of P (those (has ranks.now) C)) }
{
    let covered = tree.row(0).label.intersection(ranks)?;
    selected(alloc, tree, &Selection::Ranks(ranks), &covered)
}

/// The tree of the paths that have a frame, over the ranks with such a path. A frame that no path has leaves the root
/// alone, with no ranks.
pub fn view_frame<T: PrefixTree>(alloc: Global, tree: &T, frame: &str) -> Result<T, AllocError>
    ensures { IfOk result
        (λ kept. (P : Pairs) (C : Ranks) → T.tree tree.now ≡ tree_of P C
        → T.tree kept ≡ tree_of (with_frame frame.now P) (ranks_with frame.now P C)) }
{
    let covered = ranks_in_frame(alloc, tree, frame)?;
    selected(alloc, tree, &Selection::Frame(frame), &covered)
}

/// The tree of the paths, each cut behind its first such frame, over the same ranks.
pub fn view_fold<T: PrefixTree>(alloc: Global, tree: &T, frame: &str) -> Result<T, AllocError>
    ensures { IfOk result
        (λ kept. (P : Pairs) (C : Ranks) → T.tree tree.now ≡ tree_of P C
        → T.tree kept ≡ tree_of (folded frame.now P) C) }
{
    let covered = tree.row(0).label;
    selected(alloc, tree, &Selection::Fold(frame), covered)
}

/// The tree of the least ranks of each class, so many, or all where it has fewer: the same pairs, over these ranks.
pub fn view_reps<T: PrefixTree>(alloc: Global, tree: &T, count: u32) -> Result<T, AllocError>
    ensures { IfOk result
        (λ kept. (P : Pairs) (C : Ranks) → HasNoEmptyPath P → T.tree tree.now ≡ tree_of P C
        → T.tree kept ≡ tree_of P (reps_of count P C)) }
{
    let classes = classes(alloc, tree)?;
    let ranks = least_ranks(alloc, &classes.all, count)?;
    view_ranks(alloc, tree, &ranks)
}

/// The tree of what a view keeps. `own` says it of the pairs that the tree's rows give, and `pairs` of any pairs that
/// the tree is of.
pub fn view_tree<T: PrefixTree>(alloc: Global, tree: &T, view: &View<'_>) -> Result<T, AllocError>
    ensures own { IfOk result (λ kept. T.tree kept
        ≡ viewed_tree (tree_view view.now) (pairs_of (T.tree tree.now)) (T.tree tree.now).coverage) }
    ensures pairs { IfOk result
        (λ kept. (P : Pairs) (C : Ranks) → HasNoEmptyPath P → T.tree tree.now ≡ tree_of P C
        → T.tree kept ≡ viewed_tree (tree_view view.now) P C) }
{
    // for the proof: the trait's law of rows
    let _lawful = tree.rows();
    viewed(alloc, tree, view)
}

// The tree of what a view keeps.
fn viewed<T: PrefixTree>(alloc: Global, tree: &T, view: &View<'_>) -> Result<T, AllocError>
    ensures { IfOk result
        (λ kept. (P : Pairs) (C : Ranks) → HasNoEmptyPath P → T.tree tree.now ≡ tree_of P C
        → T.tree kept ≡ viewed_tree (tree_view view.now) P C) }
{
    match view {
        View::Ranks(ranks) => view_ranks(alloc, tree, ranks),
        View::Frame(frame) => view_frame(alloc, tree, frame),
        View::Fold(frame) => view_fold(alloc, tree, frame),
        View::Reps(count) => view_reps(alloc, tree, *count),
    }
}

/// A law of views: the pairs that a view keeps of pairs without an empty path have none.
pub fn views_keep_no_empty_path()
    ensures { (v : TreeView) (P : Pairs) → HasNoEmptyPath P → HasNoEmptyPath (viewed_pairs v P) }
{}
