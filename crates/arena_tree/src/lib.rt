//! A path-compressed prefix tree (radix tree) of call paths, with its nodes in an arena.
//!
//! [`ArenaTree`] is a [`prefix_tree::PrefixTree`]. Rows one below the other that the same ranks pass are a *chain*. A
//! chain is one node here, where a tree of rows has a node for each row. Each node is linked to its first child and to
//! its next sibling, and siblings are in the order of their first frames.
//!
//! ```text
//! let mut tree = ArenaTree::empty(alloc);
//! tree.cover(&ranks)?;                  // these ranks were looked at
//! tree.add(&waiting, &path)?;           // and these of them were seen in this path
//! tree.merge(&other)?;
//! let mut at = tree.cursor(alloc)?;
//! tree.next_row(&mut at)                // the first row below the root
//! ```
//!
//! `add` and `merge` have two passes. The first one only reads: it plans the steps of the change, and makes all sets,
//! frames and room that they need. The second one does the steps and can't fail, so a change that is refused leaves the
//! tree as it was. `add_or_clear` and `merge_or_clear` have one pass, since they may leave an empty tree if they fail:
//! nodes are changed and added as soon as they are found. They make what the steps make.
//!
//! The contracts are those of `PrefixTree`, which see a tree as its coverage and its rows. `specs/TreeView.antt` says
//! which tree the nodes stand for, `specs/ChainForest.antt` what a forest of chains is and which rows it shows,
//! `specs/ChainMerge.antt` how two of them are merged, and `specs/Steps.antt` which steps do it.
#![tactic(auto)]

ghost use Rattle.arena_tree.specs.Laws.{CutShowsSameRows, MergeUnitesRows, StepsMakeMerge};
ghost use Rattle.arena_tree.specs.ReadingOrder.{ReadsInOrder};

mod apply;
mod grow;
mod merge;
mod node;
mod plan;
mod row;
mod shared;
mod target;
mod trail;
mod tree;
mod walk;

pub use tree::ArenaTree;

/// Laws of forests of chains: a node that is cut in two shows the same rows, the rows of two merged forests are the
/// united rows of both, the steps of a merge make the merged forest, and how rows are read one after another.
pub fn chain_laws()
    ensures cut { CutShowsSameRows }
    ensures united { MergeUnitesRows }
    ensures made { StepsMakeMerge }
    ensures read { ReadsInOrder }
{}
