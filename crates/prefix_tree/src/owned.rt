//! A tree as one vector of rows.
ghost use Rattle.std.specs.Prelude.{⊤, ◌≡◌, ◌≤◌, ◌<◌, ◌+◌, ◌-◌, ◌++◌, [], ◌∷◌, OnOk, OnErr, IfOk, IfErr, IfSome, slice_get, length, map, nat_le};
ghost use Rattle.std.specs.Vec.{vec_capacity};
ghost use Rattle.rank_set.specs.Ranks.{none, union};
ghost use Rattle.call_path.specs.Good.{IsGoodPath};
ghost use Rattle.prefix_tree.specs.Joined.{path_rows};
ghost use Rattle.prefix_tree.specs.Shown.{Shows, IsGoodRow};
ghost use Rattle.prefix_tree.specs.Chains.{shown, chain_rows, IsGoodChain};
ghost use Rattle.prefix_tree.specs.Owned.{HasIncreasingPaths, entries_view, below_in, place_of};
ghost use Rattle.prefix_tree.specs.Changes.{changed, is_new, new_among, inserted};

use crate::{Chain, Cursor, PrefixTree, Row, TreeError};
use call_path::{CallPath, PREFIX_LIMIT};
use rank_set::RankSet;
use std::alloc::{AllocError, Global};
use std::cmp::Ordering;
use std::marker::Model;

/// A prefix, the ranks that pass it, and those whose path ends there.
#[derive(Drop)]
struct TreeRow {
    path: CallPath,
    label: RankSet,
    ends: RankSet,
}

/// A tree as one vector of rows, in the order of their prefixes.
#[derive(Drop)]
pub struct OwnedTree {
    coverage: RankSet,
    // The empty set, lent for the ends of the root.
    no_ranks: RankSet,
    rows: Vec<TreeRow>,
}

impl Model for OwnedTree {
    ghost use Rattle.std.specs.Prelude.{◌≡◌};
    ghost use Rattle.rank_set.specs.Ranks.{none};
    ghost use Rattle.prefix_tree.specs.Tree.{Tree};
    ghost use Rattle.prefix_tree.specs.Code.{coded_tree};
    ghost use Rattle.prefix_tree.specs.Owned.{tree_in, AreTreeRows};

    ghost Value = { Tree };

    ghost coded = { coded_tree };

    ghost view = { λ a. tree_in a.coverage a.rows.items };

    ghost invariant = { λ a. record { tree : AreTreeRows a.coverage a.rows.items; no_ranks : a.no_ranks ≡ none } };
}

impl PrefixTree for OwnedTree {
    ghost tree = { λ t. t };

    // Any cursor, since a row is found by its number.
    ghost is_cursor = { λ _ _. ⊤ };

    fn empty(alloc: Global) -> OwnedTree {
        OwnedTree {
            coverage: RankSet::new(alloc),
            no_ranks: RankSet::new(alloc),
            rows: Vec::new(alloc),
        }
    }

    fn cover(&mut self, ranks: &RankSet) -> Result<(), AllocError> {
        self.coverage.union_into(ranks)?;
        Ok(())
    }

    fn add(&mut self, ranks: &RankSet, path: &CallPath) -> Result<(), TreeError> {
        let changes = path_changes(
            *self.rows.allocator(),
            &self.rows,
            ranks,
            path,
            &self.no_ranks,
        )?;
        if !has_room(&self.rows, changes.added) {
            return Err(TreeError::TooManyPrefixes);
        }
        self.rows.reserve(changes.added)?;
        insert_rows(&mut self.rows, changes.rows);
        Ok(())
    }

    fn merge(&mut self, other: &OwnedTree) -> Result<(), TreeError> {
        let changes = row_changes(*self.rows.allocator(), &self.rows, &other.rows)?;
        if !has_room(&self.rows, changes.added) {
            return Err(TreeError::TooManyPrefixes);
        }
        self.rows.reserve(changes.added)?;
        self.coverage.union_into(&other.coverage)?;
        insert_rows(&mut self.rows, changes.rows);
        Ok(())
    }

    fn add_or_clear(&mut self, ranks: &RankSet, path: &CallPath) -> Result<(), TreeError> {
        match self.add(ranks, path) {
            Ok(()) => Ok(()),
            Err(error) => {
                *self = OwnedTree::empty(*self.rows.allocator());
                Err(error)
            }
        }
    }

    fn merge_or_clear(&mut self, other: &OwnedTree) -> Result<(), TreeError> {
        match self.merge(other) {
            Ok(()) => Ok(()),
            Err(error) => {
                *self = OwnedTree::empty(*self.rows.allocator());
                Err(error)
            }
        }
    }

    fn copy(&self) -> Result<OwnedTree, AllocError> {
        Ok(OwnedTree {
            coverage: self.coverage.copy()?,
            no_ranks: self.no_ranks.copy()?,
            rows: copy_rows(*self.rows.allocator(), &self.rows)?,
        })
    }

    fn rows(&self) -> usize {
        self.rows.as_slice().len() + 1
    }

    fn row(&self, i: usize) -> Row<'_> {
        if i == 0 {
            return Row {
                depth: 0,
                frame: "/",
                label: &self.coverage,
                ends: &self.no_ranks,
            };
        }
        shown(&self.rows, i - 1)
    }

    fn cursor(&self, alloc: Global) -> Result<Cursor, AllocError> {
        // for the proof: the invariant of the value
        let _ = &self.rows;
        Ok(Cursor {
            row: 1,
            waiting: Vec::new(alloc),
            frame: 0,
        })
    }

    fn next_row(&self, at: &mut Cursor) -> Option<Row<'_>> {
        let i = at.row;
        if i >= self.rows() {
            return None;
        }
        at.row = i + 1;
        Some(self.row(i))
    }

    fn next_chain(&self, at: &mut Cursor) -> Option<Chain<'_>> {
        let i = at.row;
        if i >= self.rows() {
            return None;
        }
        at.row = i + 1;
        Some(shown_chain(&self.rows, i - 1))
    }
}

fn shown(rows: &[TreeRow], i: usize) -> Row<'_>
    requires { i < length rows.now }
    ensures shows { IfSome (slice_get (entries_view rows.now) i) (Shows result) }
    ensures good { IsGoodRow result }
{
    let row = &rows[i];
    let depth = row.path.len();
    Row {
        depth,
        frame: row.path.frame(depth - 1),
        label: &row.label,
        ends: &row.ends,
    }
}

// A row as a chain of its own.
fn shown_chain(rows: &[TreeRow], i: usize) -> Chain<'_>
    requires { i < length rows.now }
    ensures rows { IfSome (slice_get (entries_view rows.now) i) (λ e. chain_rows result ≡ shown e ∷ []) }
    ensures good { IsGoodChain result }
    ensures one { length result.frames.now - result.skip ≡ 1 }
{
    let row = &rows[i];
    let depth = row.path.len();
    Chain {
        depth,
        frames: &row.path,
        skip: depth - 1,
        label: &row.label,
        ends: &row.ends,
    }
}

// The index of a path's row, or where it would go: a binary search.
fn find_row(rows: &[TreeRow], path: &CallPath) -> Result<usize, usize>
    requires { HasIncreasingPaths rows.now }
    ensures index { result ≡ place_of path.now (entries_view rows.now) }
    ensures found { IfOk result (λ at. at < length rows.now) }
    ensures absent { IfErr result (λ at. at ≤ length rows.now) }
{
    let mut low = 0;
    let mut high = rows.len();
    while low < high {
        let middle = low + (high - low) / 2;
        match path.cmp(&rows[middle].path) {
            Ordering::Less => high = middle,
            Ordering::Equal => return Ok(middle),
            Ordering::Greater => low = middle + 1,
        }
    }
    Err(low)
}

fn copy_rows(alloc: Global, rows: &[TreeRow]) -> Result<Vec<TreeRow>, AllocError>
    ensures { IfOk result (λ all. entries_view all.items ≡ entries_view rows.now) }
{
    let mut all = Vec::with_capacity(alloc, rows.len())?;
    for row in rows {
        all.push(TreeRow {
            path: row.path.copy()?,
            label: row.label.copy()?,
            ends: row.ends.copy()?,
        })?;
    }
    Ok(all)
}

// The marks of a path once these are united into them, and whether its row is new.
fn united_marks(
    rows: &[TreeRow],
    path: &CallPath,
    label: &RankSet,
    ends: &RankSet,
) -> Result<(RankSet, RankSet, bool), AllocError>
    requires { HasIncreasingPaths rows.now }
    ensures marks { IfOk result
        (λ m. (path.now, (m.0, m.1)) ≡ changed (below_in rows.now) (path.now, (label.now, ends.now))) }
    ensures new { IfOk result (λ m. m.2 ≡ is_new (below_in rows.now) (path.now, (label.now, ends.now))) }
{
    match find_row(rows, path) {
        Ok(at) => {
            let row = &rows[at];
            Ok((row.label.united(label)?, row.ends.united(ends)?, false))
        }
        Err(_) => Ok((label.copy()?, ends.copy()?, true)),
    }
}

// Rows as they will be, and how many of them are new.
#[derive(Drop)]
struct Changes {
    rows: Vec<TreeRow>,
    added: usize,
}

impl Changes {
    // Appends the row of a path, with the marks united into its own.
    fn note(
        &mut self,
        rows: &[TreeRow],
        path: CallPath,
        label: &RankSet,
        ends: &RankSet,
    ) -> Result<(), AllocError>
        requires in_order { HasIncreasingPaths rows.now }
        requires added_within { self.old.added ≤ length self.old.rows.items }
        ensures rows { OnOk result
            (entries_view self.new.rows.items
            ≡ entries_view self.old.rows.items ++ changed (below_in rows.now) (path, (label.now, ends.now)) ∷ []) }
        ensures added { OnOk result
            (self.new.added ≡ self.old.added + new_among (below_in rows.now) ((path, (label.now, ends.now)) ∷ [])) }
        ensures added_within { OnOk result (self.new.added ≤ length self.new.rows.items) }
    {
        let (label, ends, is_new) = united_marks(rows, &path, label, ends)?;
        self.rows.push(TreeRow { path, label, ends })?;
        if is_new {
            self.added += 1;
        }
        Ok(())
    }
}

// The changes that merging other rows makes to these.
fn row_changes(alloc: Global, rows: &[TreeRow], others: &[TreeRow]) -> Result<Changes, AllocError>
    requires { HasIncreasingPaths rows.now }
    ensures rows { IfOk result
        (λ all. entries_view all.rows.items ≡ map (changed (below_in rows.now)) (entries_view others.now)) }
    ensures added { IfOk result (λ all. all.added ≡ new_among (below_in rows.now) (entries_view others.now)) }
{
    let mut changes = Changes {
        rows: Vec::with_capacity(alloc, others.len())?,
        added: 0,
    };
    for row in others {
        changes.note(rows, row.path.copy()?, &row.label, &row.ends)?;
    }
    Ok(changes)
}

// The changes that adding a path makes to these rows.
fn path_changes(
    alloc: Global,
    rows: &[TreeRow],
    ranks: &RankSet,
    path: &CallPath,
    no_ranks: &RankSet,
) -> Result<Changes, AllocError>
    requires in_order { HasIncreasingPaths rows.now }
    requires no_ranks { no_ranks.now ≡ none }
    ensures rows { IfOk result
        (λ all. entries_view all.rows.items ≡ map (changed (below_in rows.now)) (path_rows ranks.now path.now)) }
    ensures added { IfOk result (λ all. all.added ≡ new_among (below_in rows.now) (path_rows ranks.now path.now)) }
    ensures good { IfOk result (λ _. IsGoodPath path.now) }
{
    let mut changes = Changes {
        rows: Vec::with_capacity(alloc, path.len())?,
        added: 0,
    };
    for depth in 1..path.len() {
        changes.note(rows, path.prefix(depth)?, ranks, no_ranks)?;
    }
    changes.note(rows, path.copy()?, ranks, ranks)?;
    Ok(changes)
}

// Whether this many rows more stay within the limit.
fn has_room(rows: &[TreeRow], added: usize) -> bool
    requires { length rows.now ≤ PREFIX_LIMIT }
    ensures { result ≡ nat_le (length rows.now + added) PREFIX_LIMIT }
{
    added <= PREFIX_LIMIT - rows.len()
}

// Inserts each row at its place, for which there is capacity.
fn insert_rows(rows: &mut Vec<TreeRow>, changes: Vec<TreeRow>)
    requires in_order { HasIncreasingPaths rows.old.items }
    requires capacity { length (inserted (entries_view rows.old.items) (entries_view changes.items))
        ≤ vec_capacity rows.old }
    ensures { entries_view rows.new.items ≡ inserted (entries_view rows.old.items) (entries_view changes.items) }
{
    for row in changes {
        match find_row(rows, &row.path) {
            Ok(at) => rows[at] = row,
            Err(at) => {
                let _ = rows.insert(at, row);
            }
        }
    }
}
