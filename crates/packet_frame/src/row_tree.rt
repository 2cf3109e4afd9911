//! The tree that the rows of a frame make.

ghost use Rattle.std.specs.Prelude.{◌≡◌, ◌<◌, ◌≤◌, [], length, OnOk, IsTrue};
ghost use Rattle.rank_set.specs.Ranks.{none, is_subset};
ghost use Rattle.prefix_tree.specs.Tree.{tree_of, count_below};
ghost use Rattle.packet_frame.specs.FrameRows.{grown};

use call_path::{PREFIX_LIMIT, PathBuilder};
use prefix_tree::{PrefixTree, TreeError};
use rank_set::RankSet;
use std::alloc::{AllocError, Global};
use std::marker::Model;
use std::mem;

/// The tree of the rows that were read so far.
#[derive(Drop)]
pub struct RowTree<T: PrefixTree> {
    tree: T,
}

impl<T: PrefixTree> Model for RowTree<T> {
    ghost use Rattle.prefix_tree.specs.Tree.{Tree};
    ghost use Rattle.prefix_tree.specs.Code.{coded_tree};

    ghost Value = { Tree };

    ghost coded = { coded_tree };

    ghost view = { λ a. T.tree a.tree };
}

impl<T: PrefixTree> RowTree<T> {
    /// The tree of no rows and no ranks.
    pub fn new(alloc: Global) -> RowTree<T>
        ensures { result ≡ tree_of [] none }
    {
        RowTree {
            tree: T::empty(alloc),
        }
    }

    /// Begins anew: the tree of no rows over a coverage.
    pub fn restart(&mut self, alloc: Global, cover: &RankSet) -> Result<(), AllocError>
        ensures { OnOk result (self.new ≡ tree_of [] cover.now) }
    {
        self.tree = T::empty(alloc);
        self.tree.cover(cover)
    }

    /// Adds the ends of one more row, if it has any.
    #[inline(always)]
    pub fn grow(
        &mut self,
        alloc: Global,
        ends: &RankSet,
        frames: &mut PathBuilder,
    ) -> Result<(), AllocError>
        requires path { 0 < length frames.old }
        requires covered { IsTrue (is_subset ends.now self.old.coverage) }
        requires room { count_below (grown self.old ends.now frames.old) ≤ PREFIX_LIMIT }
        ensures tree { OnOk result (self.new ≡ grown self.old ends.now frames.old) }
        ensures path { frames.new ≡ frames.old }
    {
        if ends.is_empty() {
            return Ok(());
        }
        let path = mem::replace(frames, PathBuilder::new(alloc)).into_path();
        let added = self.tree.add_or_clear(ends, &path);
        *frames = path.into_builder();
        match added {
            Ok(()) => Ok(()),
            Err(TreeError::OutOfMemory) => Err(AllocError),
            Err(TreeError::TooManyPrefixes) => unreachable!(),
        }
    }

    /// Takes the tree out.
    pub fn take(&mut self, alloc: Global) -> T
        ensures { T.tree result ≡ self.old }
    {
        mem::replace(&mut self.tree, T::empty(alloc))
    }
}
