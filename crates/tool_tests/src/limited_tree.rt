//! A tree for one test. It keeps an [`OwnedTree`], but won't merge a tree of more than 16 ranks where it has some
//! already.

ghost use Rattle.std.specs.Prelude.{⊤};

use call_path::CallPath;
use prefix_tree::{Chain, Cursor, OwnedTree, PrefixTree, Row, TreeError};
use rank_set::RankSet;
use std::alloc::{AllocError, Global};

#[derive(Drop)]
pub struct LimitedTree {
    tree: OwnedTree,
    alloc: Global,
}

impl PrefixTree for LimitedTree {
    ghost tree = { λ t. t.tree };

    ghost is_cursor = { λ _ _. ⊤ };

    fn empty(alloc: Global) -> LimitedTree {
        LimitedTree {
            tree: OwnedTree::empty(alloc),
            alloc,
        }
    }

    fn cover(&mut self, ranks: &RankSet) -> Result<(), AllocError> {
        self.tree.cover(ranks)
    }

    fn add(&mut self, ranks: &RankSet, path: &CallPath) -> Result<(), TreeError> {
        self.tree.add(ranks, path)
    }

    fn merge(&mut self, other: &LimitedTree) -> Result<(), TreeError> {
        let own = self.tree.row(0).label.count();
        if own > 0 && other.tree.row(0).label.count() > 16 {
            return Err(TreeError::OutOfMemory);
        }
        self.tree.merge(&other.tree)
    }

    fn add_or_clear(&mut self, ranks: &RankSet, path: &CallPath) -> Result<(), TreeError> {
        self.tree.add_or_clear(ranks, path)
    }

    fn merge_or_clear(&mut self, other: &LimitedTree) -> Result<(), TreeError> {
        match self.merge(other) {
            Ok(()) => Ok(()),
            Err(error) => {
                self.tree = OwnedTree::empty(self.alloc);
                Err(error)
            }
        }
    }

    fn copy(&self) -> Result<LimitedTree, AllocError> {
        Ok(LimitedTree {
            tree: self.tree.copy()?,
            alloc: self.alloc,
        })
    }

    fn rows(&self) -> usize {
        self.tree.rows()
    }

    fn row(&self, i: usize) -> Row<'_> {
        self.tree.row(i)
    }

    fn cursor(&self, alloc: Global) -> Result<Cursor, AllocError> {
        self.tree.cursor(alloc)
    }

    fn next_row(&self, at: &mut Cursor) -> Option<Row<'_>> {
        self.tree.next_row(at)
    }

    fn next_chain(&self, at: &mut Cursor) -> Option<Chain<'_>> {
        self.tree.next_chain(at)
    }
}
