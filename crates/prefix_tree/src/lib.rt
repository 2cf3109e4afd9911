//! Call-graph prefix trees: each prefix of the call paths of a job, with the ranks that pass there.
//!
//! A tree stands for pairs of a rank and a path that it was seen in, over a coverage: the ranks
//! that were looked at. The label of a prefix has the covered ranks with a path that starts with
//! it, and its ends have those whose path it is.
#![tactic(auto)]

ghost use Rattle.std.specs.Prelude.{ℕ, ◌+◌, ◌-◌, ◌++◌, drop, ◌&&◌, ◌≡◌, ◌≢◌, ◌<◌, ◌≤◌, IsTrue, OnOk, OnErr, IfOk, IfSome, slice_get, length, []};
ghost use Rattle.rank_set.specs.Ranks.{Ranks, none, has, is_subset};
ghost use Rattle.call_path.specs.Path.{Path};
ghost use Rattle.prefix_tree.specs.Joined.{IsTreeOf};
ghost use Rattle.call_path.specs.Pairs.{Pairs, is_pair, is_below};
ghost use Rattle.prefix_tree.specs.Tree.{Tree, tree_of, merged, covered, added, pairs_of, Unites, count_below, rows_of, IsTree, IsLawful, Covers, Adds};
ghost use Rattle.std.specs.FinMap as finmap;
ghost use Rattle.prefix_tree.specs.Shown.{Shows, IsGoodRow};
ghost use Rattle.prefix_tree.specs.Walk.{Follows};
ghost use Rattle.prefix_tree.specs.Chains.{rows_shown, chain_rows, IsGoodChain};
ghost use Rattle.prefix_tree.specs.declared.Cursor.{Cursor};

use call_path::{CallPath, PREFIX_LIMIT};
pub use owned::OwnedTree;
use rank_set::RankSet;
use std::alloc::{AllocError, Global};

mod owned;

/// Why a tree was not changed.
#[derive(Debug, PartialEq, Eq, Clone, Copy)]
pub enum TreeError {
    /// It would have more than 2,048 rows besides the root.
    TooManyPrefixes,
    /// Out of memory.
    OutOfMemory,
}

impl From<AllocError> for TreeError {
    ghost use Rattle.std.specs.Prelude.{◌≡◌};
    ghost use Rattle.prefix_tree.specs.declared.TreeError.TheVariants.{OutOfMemory};

    ghost from_gives = { λ _ e. e ≡ OutOfMemory };

    fn from(_: AllocError) -> Self {
        TreeError::OutOfMemory
    }
}

/// A row of a tree, as it is read.
#[derive(Clone, Copy)]
pub struct Row<'a> {
    /// How many frames its prefix has: 0 at the root, and else 1 to 128.
    pub depth: usize,
    /// The last frame of its prefix, and `/` at the root.
    pub frame: &'a str,
    /// The ranks that pass the prefix. At the root this is the coverage.
    pub label: &'a RankSet,
    /// The ranks whose path is the prefix. The root has none.
    pub ends: &'a RankSet,
}

/// A chain: rows one below the other that have the same label, where paths end at the last of them alone. It is read at
/// once.
#[derive(Clone, Copy)]
pub struct Chain<'a> {
    /// The depth of its first row: 1 to 128.
    pub depth: usize,
    /// The last frames of its rows, behind others that come before the chain.
    pub frames: &'a CallPath,
    /// How many frames come before the chain.
    pub skip: usize,
    /// The ranks that pass its rows.
    pub label: &'a RankSet,
    /// The ranks whose path is the prefix of its last row.
    pub ends: &'a RankSet,
}

/// A node that waits to be read, in a tree that is made of nodes.
#[derive(Debug, Clone, Copy)]
pub struct WaitingNode {
    /// Where the node is in its tree.
    pub place: u32,
    /// The depth of its first row.
    pub depth: u32,
}

/// A position among a tree's rows: the next row to read is row `row`. [`PrefixTree::cursor`] returns one, and
/// [`PrefixTree::next_row`] moves it.
///
/// The other fields are the tree's own: a tree that goes from node to node keeps there what it has still to read.
#[derive(Drop)]
pub struct Cursor {
    /// The number of the next row, or the number of all rows if none is left.
    pub row: usize,
    /// The nodes that wait to be read, the next one last.
    pub waiting: Vec<WaitingNode>,
    /// The number of the next row within the last of them.
    pub frame: u32,
}

/// A tree of ranks and the call paths that they were seen in.
pub trait PrefixTree: Sized + Drop + Send {
    /// The coverage, and the label and the ends of each prefix below the root.
    ghost tree: { Self → Tree };

    /// The cursor belongs to the tree as it is: it stands before row `row` of it, or past the last.
    ghost is_cursor: { Self → Cursor → Type 0 };

    /// The root alone, with no ranks.
    fn empty(alloc: Global) -> Self
        ensures { tree result ≡ tree_of [] none };

    /// Unites the ranks into the coverage. On failure the tree is unchanged.
    fn cover(&mut self, ranks: &RankSet) -> Result<(), AllocError>
        ensures ok { OnOk result (tree self.new ≡ covered (tree self.old) ranks.now) }
        ensures pairs { OnOk result (Covers (tree self.old) ranks.now (tree self.new)) }
        ensures err { OnErr result (tree self.new ≡ tree self.old) };

    /// Adds a path that each of the ranks was seen in. The ranks are covered, and there are some.
    /// On failure the tree is unchanged.
    fn add(&mut self, ranks: &RankSet, path: &CallPath) -> Result<(), TreeError>
        requires not_empty { ranks.now ≢ none }
        requires in_coverage { IsTrue (is_subset ranks.now (tree self.old).coverage) }
        ensures ok { OnOk result (tree self.new ≡ added (tree self.old) ranks.now path.now) }
        ensures pairs { OnOk result (Adds (tree self.old) ranks.now path.now (tree self.new)) }
        ensures fits { OnOk result (count_below (added (tree self.old) ranks.now path.now) ≤ PREFIX_LIMIT) }
        ensures full { result ≡ Err TreeError.TooManyPrefixes
            → PREFIX_LIMIT < count_below (added (tree self.old) ranks.now path.now) }
        ensures err { OnErr result (tree self.new ≡ tree self.old) };

    /// Unites another tree into it, row by row. On failure the tree is unchanged.
    fn merge(&mut self, other: &Self) -> Result<(), TreeError>
        ensures ok { OnOk result (tree self.new ≡ merged (tree self.old) (tree other.now)) }
        ensures pairs { OnOk result (Unites (tree self.old) (tree other.now) (tree self.new)) }
        ensures fits { OnOk result (count_below (merged (tree self.old) (tree other.now)) ≤ PREFIX_LIMIT) }
        ensures full { result ≡ Err TreeError.TooManyPrefixes
            → PREFIX_LIMIT < count_below (merged (tree self.old) (tree other.now)) }
        ensures err { OnErr result (tree self.new ≡ tree self.old) };

    /// Adds a path as `add` does, in one pass. On failure the tree is the root alone, with no ranks.
    fn add_or_clear(&mut self, ranks: &RankSet, path: &CallPath) -> Result<(), TreeError>
        requires not_empty { ranks.now ≢ none }
        requires in_coverage { IsTrue (is_subset ranks.now (tree self.old).coverage) }
        ensures ok { OnOk result (tree self.new ≡ added (tree self.old) ranks.now path.now) }
        ensures pairs { OnOk result (Adds (tree self.old) ranks.now path.now (tree self.new)) }
        ensures fits { OnOk result (count_below (added (tree self.old) ranks.now path.now) ≤ PREFIX_LIMIT) }
        ensures full { result ≡ Err TreeError.TooManyPrefixes
            → PREFIX_LIMIT < count_below (added (tree self.old) ranks.now path.now) }
        ensures err { OnErr result (tree self.new ≡ tree_of [] none) };

    /// Unites another tree into it as `merge` does, in one pass. On failure the tree is the root alone, with no ranks.
    fn merge_or_clear(&mut self, other: &Self) -> Result<(), TreeError>
        ensures ok { OnOk result (tree self.new ≡ merged (tree self.old) (tree other.now)) }
        ensures pairs { OnOk result (Unites (tree self.old) (tree other.now) (tree self.new)) }
        ensures fits { OnOk result (count_below (merged (tree self.old) (tree other.now)) ≤ PREFIX_LIMIT) }
        ensures full { result ≡ Err TreeError.TooManyPrefixes
            → PREFIX_LIMIT < count_below (merged (tree self.old) (tree other.now)) }
        ensures err { OnErr result (tree self.new ≡ tree_of [] none) };

    /// The same tree once more.
    fn copy(&self) -> Result<Self, AllocError>
        ensures { IfOk result (λ copy. tree copy ≡ tree self.now) };

    /// How many rows, the root among them: 1 up to 2,049.
    fn rows(&self) -> usize
        ensures count { result ≡ length (rows_of (tree self.now)) }
        ensures lawful { IsLawful (tree self.now) };

    /// Row `i`, in the order of their prefixes: the root is row 0.
    fn row(&self, i: usize) -> Row<'_>
        requires { i < length (rows_of (tree self.now)) }
        ensures shows { IfSome (slice_get (rows_of (tree self.now)) i) (Shows result) }
        ensures good { 0 < i → IsGoodRow result };

    /// A cursor before row 1, the first below the root.
    fn cursor(&self, alloc: Global) -> Result<Cursor, AllocError>
        ensures cursor { IfOk result (λ at. is_cursor self.now at) }
        ensures first { IfOk result (λ at. at.row ≡ 1) }
        ensures lawful { IsLawful (tree self.now) };

    /// Returns the row before which the cursor stands, as `row` does, and moves the cursor to the next one. None past
    /// the last row. It takes no memory.
    fn next_row(&self, at: &mut Cursor) -> Option<Row<'_>>
        requires { is_cursor self.now at.old }
        ensures within { IfSome result (λ _. at.old.row < length (rows_of (tree self.now))) }
        ensures shows { IfSome result (λ row. IfSome (slice_get (rows_of (tree self.now)) at.old.row) (Shows row)) }
        ensures good { IfSome result (λ row. 0 < at.old.row → IsGoodRow row) }
        ensures next { IfSome result (λ _. at.new.row ≡ at.old.row + 1) }
        ensures end { result ≡ None → length (rows_of (tree self.now)) ≤ at.old.row }
        ensures stays { result ≡ None → at.new.row ≡ at.old.row }
        ensures cursor { is_cursor self.now at.new };

    /// Returns the rows from the one before which the cursor stands up to the end of a chain, at least that one, and
    /// moves the cursor behind them. None past the last row. It takes no memory.
    fn next_chain(&self, at: &mut Cursor) -> Option<Chain<'_>>
        requires cursor { is_cursor self.now at.old }
        requires below_root { 0 < at.old.row }
        ensures rows { IfSome result (λ chain. drop at.old.row (rows_shown (tree self.now))
            ≡ chain_rows chain ++ drop at.new.row (rows_shown (tree self.now))) }
        ensures good { IfSome result IsGoodChain }
        ensures next { IfSome result (λ chain. at.new.row ≡ at.old.row + (length chain.frames.now - chain.skip)) }
        ensures within { IfSome result (λ _. at.new.row ≤ length (rows_of (tree self.now))) }
        ensures end { result ≡ None → length (rows_of (tree self.now)) ≤ at.old.row }
        ensures stays { result ≡ None → at.new.row ≡ at.old.row }
        ensures cursor { is_cursor self.now at.new };
}

/// A law of trees: each row's prefix is a prefix of the row before, with one frame more, so that depths and frames
/// alone determine all prefixes.
pub fn rows_follow()
    ensures { (t : Tree) → IsTree t → Follows [] (finmap.entries t.below) }
{}

/// A law of trees: there is a row exactly at the prefixes that some covered rank passes; its label is the covered ranks
/// that pass there, and its ends are those whose path it is. So the pairs of the tree are those of the covered ranks.
pub fn rows_tell_who_passes()
    ensures rows { (P : Pairs) (C : Ranks) → IsTreeOf P C (tree_of P C) }
    ensures pairs { (P : Pairs) (C : Ranks) (r : ℕ) (p : Path)
        → is_pair (pairs_of (tree_of P C)) r p ≡ (is_below p && (has C r && is_pair P r p)) }
{}
