//! A tree as nodes in an arena.

ghost use Rattle.std.specs.Prelude.{◌≡◌, ◌+◌, ◌<◌, ◌≤◌, ◌^◌, IfOk, OnOk, length};
ghost use Rattle.rank_set.specs.Ranks.{none};
ghost use Rattle.arena_tree.specs.declared.node.Link.TheVariants.{Top};
ghost use Rattle.arena_tree.specs.ChainForest.{count_rows};
ghost use Rattle.arena_tree.specs.Reading.{forest_at, LeadsToForest};
ghost use Rattle.arena_tree.specs.Trail.{AreHints, AreOwnHints, LeadsToOrdered};
ghost use Rattle.arena_tree.specs.Steps.{nodes_added, rows_added};
ghost use Rattle.arena_tree.specs.NewChains.{one_chain};
ghost use Rattle.arena_tree.specs.Growth.{growth_view, all_at, whole_tree, CanGrow, grown, rows_grown};
ghost use Rattle.arena_tree.specs.Cursors.{IsCursor};

use crate::apply::apply;
use crate::grow::Growth;
use crate::merge::{NewChain, Source, plan_merge, plan_path};
use crate::node::{ChangeStep, Link, NO_PLACE, NewMarks, Node};
use crate::plan::ChangePlan;
use crate::row::{chain_from, chain_row, find_row};
use crate::target::MergeTarget;
use crate::trail::{Hint, Search};
use crate::walk::{move_on, move_past, put_link};
use call_path::{CallPath, PREFIX_LIMIT};
use node_arena::{Arena, Place};
use prefix_tree::{Chain, Cursor, PrefixTree, Row, TreeError};
use rank_set::RankSet;
use std::alloc::{AllocError, Global};
use std::marker::Model;
use std::mem;

/// A tree that has one node for each chain of rows with the same ranks.
///
/// A node has the frames of its rows, the ranks that pass them, and those whose path ends at the last of them. It is
/// linked to its first child and to its next sibling; siblings are in the order of their first frames.
#[derive(Drop)]
pub struct ArenaTree {
    coverage: RankSet,
    // Stays empty: the ends of the root, and of each row that is not the last of its chain.
    no_ranks: RankSet,
    nodes: Arena<Node>,
    // The place of the first node below the root.
    first: Place,
    // How many rows there are below the root.
    rows: u32,
    // Where the frames of the path that was added last are, by level: paths that come in their order are found at once.
    trail: Vec<Hint>,
    // Room for the steps of the next path that is added.
    room: Vec<ChangeStep>,
    alloc: Global,
}

impl Model for ArenaTree {
    ghost use Rattle.std.specs.Prelude.{◌≡◌};
    ghost use Rattle.rank_set.specs.Ranks.{none};
    ghost use Rattle.arena_tree.specs.ChainForest.{count_rows};
    ghost use Rattle.arena_tree.specs.Reading.{forest_at};
    ghost use Rattle.arena_tree.specs.TreeView.{ArenaView, arena_view, coded_arena, IsArenaTree};
    ghost use Rattle.arena_tree.specs.Trail.{AreHints};

    // The nodes are part of the value, since a cursor stands at one of them.
    ghost Value = { ArenaView };

    ghost coded = { coded_arena };

    ghost view = { λ a. arena_view a.coverage a.nodes.items a.first };

    ghost invariant = { λ a. record {
      tree : IsArenaTree a.coverage a.nodes.items a.first;
      rows : a.rows ≡ count_rows (forest_at a.nodes.items a.first);
      no_ranks : a.no_ranks ≡ none;
      hints : AreHints (forest_at a.nodes.items a.first) a.trail.items;
    } };
}

impl PrefixTree for ArenaTree {
    ghost tree = { λ t. t.tree };

    ghost is_cursor = { λ t at. IsCursor t.nodes t.first at };

    fn empty(alloc: Global) -> ArenaTree {
        ArenaTree {
            coverage: RankSet::new(alloc),
            no_ranks: RankSet::new(alloc),
            nodes: Arena::new(alloc),
            first: NO_PLACE,
            rows: 0,
            trail: Vec::new(alloc),
            room: Vec::new(alloc),
            alloc,
        }
    }

    fn cover(&mut self, ranks: &RankSet) -> Result<(), AllocError> {
        self.coverage.union_into(ranks)?;
        Ok(())
    }

    fn add(&mut self, ranks: &RankSet, path: &CallPath) -> Result<(), TreeError> {
        let room = mem::replace(&mut self.room, Vec::new(self.alloc));
        let mut plan = ChangePlan::in_room(room, self.nodes.len());
        // for the proof: a path has at most `FRAME_LIMIT` frames
        let _len = path.len();
        let mut into = MergeTarget {
            link: Link::Top,
            node: self.first,
            skip: 0,
            place: self.first,
        };
        let chain = NewChain {
            path,
            skip: 0,
            marks: NewMarks {
                label: ranks,
                ends: ranks,
            },
            no_ranks: &self.no_ranks,
        };
        let search = Search {
            nodes: &self.nodes,
            root: self.first,
            level: 0,
        };
        let _below = plan_path(search, &mut into, chain, &mut plan, &mut self.trail)?;
        if let Err(error) = make_room(&mut self.nodes, self.rows, &plan) {
            return Err(error);
        }
        self.rows += plan.rows();
        self.room = apply(&mut self.first, &mut self.nodes, plan.into_steps());
        Ok(())
    }

    fn merge(&mut self, other: &ArenaTree) -> Result<(), TreeError> {
        let steps = Vec::with_capacity(self.alloc, other.nodes.len() as usize)?;
        let mut plan = ChangePlan::in_room(steps, self.nodes.len());
        let into = MergeTarget {
            link: Link::Top,
            node: self.first,
            skip: 0,
            place: self.first,
        };
        let from = Source {
            nodes: &other.nodes,
            no_ranks: &self.no_ranks,
        };
        plan_merge(&self.nodes, into, from, other.first, &mut plan)?;
        if let Err(error) = make_room(&mut self.nodes, self.rows, &plan) {
            return Err(error);
        }
        self.coverage.union_into(&other.coverage)?;
        self.trail.clear();
        self.rows += plan.rows();
        let _room = apply(&mut self.first, &mut self.nodes, plan.into_steps());
        Ok(())
    }

    fn add_or_clear(&mut self, ranks: &RankSet, path: &CallPath) -> Result<(), TreeError> {
        // for the proof: the path's frames are good
        let _len = path.len();
        let mut growth = Growth {
            first: self.first,
            nodes: mem::replace(&mut self.nodes, Arena::new(self.alloc)),
            rows: self.rows,
        };
        let chain = NewChain {
            path,
            skip: 0,
            marks: NewMarks {
                label: ranks,
                ends: ranks,
            },
            no_ranks: &self.no_ranks,
        };
        match grow_path(&mut growth, chain, &mut self.trail) {
            Ok(()) => {
                self.first = growth.first;
                self.rows = growth.rows;
                self.nodes = growth.nodes;
                Ok(())
            }
            Err(error) => {
                *self = ArenaTree::empty(self.alloc);
                Err(error)
            }
        }
    }

    fn merge_or_clear(&mut self, other: &ArenaTree) -> Result<(), TreeError> {
        let mut growth = Growth {
            first: self.first,
            nodes: mem::replace(&mut self.nodes, Arena::new(self.alloc)),
            rows: self.rows,
        };
        let from = Source {
            nodes: &other.nodes,
            no_ranks: &self.no_ranks,
        };
        match grow_tree(&mut growth, from, other.first) {
            Ok(()) => {}
            Err(error) => {
                *self = ArenaTree::empty(self.alloc);
                return Err(error);
            }
        }
        match self.coverage.union_into(&other.coverage) {
            Ok(()) => {}
            Err(error) => {
                *self = ArenaTree::empty(self.alloc);
                return Err(error.into());
            }
        }
        self.trail.clear();
        self.first = growth.first;
        self.rows = growth.rows;
        self.nodes = growth.nodes;
        Ok(())
    }

    fn copy(&self) -> Result<ArenaTree, AllocError> {
        Ok(ArenaTree {
            coverage: self.coverage.copy()?,
            no_ranks: self.no_ranks.copy()?,
            nodes: copy_nodes(self.alloc, &self.nodes)?,
            first: self.first,
            rows: self.rows,
            trail: Vec::new(self.alloc),
            room: Vec::new(self.alloc),
            alloc: self.alloc,
        })
    }

    fn rows(&self) -> usize {
        self.rows as usize + 1
    }

    fn row(&self, i: usize) -> Row<'_> {
        if i == 0 {
            return Row {
                depth: 0,
                frame: "/",
                label: &self.coverage,
                ends: &self.no_ranks,
            };
        }
        match find_row(&self.nodes, self.first, 1, i - 1, &self.no_ranks) {
            Ok(row) => row,
            Err(_) => unreachable!(),
        }
    }

    fn cursor(&self, alloc: Global) -> Result<Cursor, AllocError> {
        let mut waiting = Vec::with_capacity(alloc, self.nodes.len() as usize)?;
        put_link(&mut waiting, self.first, 1);
        Ok(Cursor {
            row: 1,
            waiting,
            frame: 0,
        })
    }

    fn next_row(&self, at: &mut Cursor) -> Option<Row<'_>> {
        // for the proof: the invariant of the tree
        let nodes = &self.nodes;
        match at.waiting.pop() {
            None => None,
            Some(top) => {
                let node = nodes.get(top.place);
                let row = chain_row(node, top.depth as usize, at.frame as usize, &self.no_ranks);
                move_on(at, node, top);
                Some(row)
            }
        }
    }

    fn next_chain(&self, at: &mut Cursor) -> Option<Chain<'_>> {
        // for the proof: the invariant of the tree
        let nodes = &self.nodes;
        match at.waiting.pop() {
            None => None,
            Some(top) => {
                let node = nodes.get(top.place);
                let chain = chain_from(node, top.depth as usize, at.frame as usize);
                move_past(at, node, top);
                Some(chain)
            }
        }
    }
}

/// The target that begins at a place.
fn all_from(first: Place) -> MergeTarget
    ensures { result ≡ all_at Top first }
{
    MergeTarget {
        link: Link::Top,
        node: first,
        skip: 0,
        place: first,
    }
}

/// Merges the nodes of another tree, from a place on, into those of a tree.
fn grow_tree(growth: &mut Growth, from: Source<'_>, other: Place) -> Result<(), TreeError>
    requires into { CanGrow growth.old.nodes.items (whole_tree growth.old) }
    requires other { LeadsToForest from.nodes.now.items other }
    requires no_ranks { from.no_ranks.now ≡ none }
    requires room { length growth.old.nodes.items + count_rows (forest_at from.nodes.now.items other) ≤ 4096 }
    requires rows { growth.old.rows + count_rows (forest_at from.nodes.now.items other) ≤ 4096 }
    ensures made { OnOk result (growth_view growth.new ≡ grown (growth_view growth.old)
        (whole_tree growth.old) (forest_at from.entry.nodes.now.items other)) }
    ensures rows { OnOk result (growth.new.rows ≡ growth.old.rows + rows_grown (growth_view growth.old)
        (whole_tree growth.old) (forest_at from.entry.nodes.now.items other)) }
    ensures fits { OnOk result (growth.new.rows ≤ PREFIX_LIMIT) }
    ensures full { result ≡ Err TreeError.TooManyPrefixes
        → PREFIX_LIMIT < growth.old.rows + rows_grown (growth_view growth.old)
        (whole_tree growth.old) (forest_at from.entry.nodes.now.items other) }
{
    let into = all_from(growth.first);
    growth.merge_in(into, from, all_from(other))?;
    if growth.rows as usize > PREFIX_LIMIT {
        return Err(TreeError::TooManyPrefixes);
    }
    Ok(())
}

/// Adds a path to the nodes of a tree.
fn grow_path(
    growth: &mut Growth,
    chain: NewChain<'_>,
    trail: &mut Vec<Hint>,
) -> Result<(), TreeError>
    requires into { CanGrow growth.old.nodes.items (whole_tree growth.old) }
    requires tree { LeadsToOrdered growth.old.nodes.items growth.old.first }
    requires skip { chain.skip ≡ 0 }
    requires no_ranks { chain.no_ranks.now ≡ none }
    requires room { length growth.old.nodes.items ≤ PREFIX_LIMIT }
    requires rows { growth.old.rows ≤ PREFIX_LIMIT }
    requires hints { AreOwnHints (forest_at growth.old.nodes.items growth.old.first) trail.old.items }
    ensures made { OnOk result (growth_view growth.new
        ≡ grown (growth_view growth.old) (whole_tree growth.old) (one_chain chain.entry)) }
    ensures rows { OnOk result (growth.new.rows ≡ growth.old.rows
        + rows_grown (growth_view growth.old) (whole_tree growth.old) (one_chain chain.entry)) }
    ensures hints { OnOk result (AreHints (forest_at growth.old.nodes.items growth.old.first) trail.old.items
        → AreHints (forest_at growth.old.nodes.items growth.old.first) trail.new.items) }
    ensures fits { OnOk result (growth.new.rows ≤ PREFIX_LIMIT) }
    ensures full { result ≡ Err TreeError.TooManyPrefixes → PREFIX_LIMIT
        < growth.old.rows + rows_grown (growth_view growth.old) (whole_tree growth.old) (one_chain chain.entry) }
{
    // for the proof: a path has at most `FRAME_LIMIT` frames
    let _len = chain.path.len();
    let into = all_from(growth.first);
    growth.add_path(into, chain, trail, 0)?;
    if growth.rows as usize > PREFIX_LIMIT {
        return Err(TreeError::TooManyPrefixes);
    }
    Ok(())
}

/// Makes room for the nodes that the steps add to a tree with so many rows.
fn make_room(nodes: &mut Arena<Node>, rows: u32, plan: &ChangePlan) -> Result<(), TreeError>
    requires rows { rows + rows_added plan.now.steps ≤ 16384 }
    requires nodes { length nodes.old.items + nodes_added plan.now.steps < 2 ^ 32 }
    ensures items { nodes.new.items ≡ nodes.old.items }
    ensures room { OnOk result (nodes_added plan.now.steps ≤ nodes.new.spare) }
    ensures fits { OnOk result (rows + rows_added plan.now.steps ≤ PREFIX_LIMIT) }
    ensures full { result ≡ Err TreeError.TooManyPrefixes → PREFIX_LIMIT < rows + rows_added plan.now.steps }
{
    if (rows + plan.rows()) as usize > PREFIX_LIMIT {
        return Err(TreeError::TooManyPrefixes);
    }
    nodes.reserve(plan.nodes())?;
    Ok(())
}

/// The same nodes once more.
fn copy_nodes(alloc: Global, nodes: &Arena<Node>) -> Result<Arena<Node>, AllocError>
    ensures { IfOk result (λ all. all.items ≡ nodes.now.items) }
{
    let mut all = Arena::new(alloc);
    all.reserve(nodes.len())?;
    for place in 0..nodes.len() {
        let node = nodes.get(place);
        // for the proof: a node has a frame
        let _len = node.frames().len();
        let copy = node.behind(0, node.first(), node.next())?;
        all.put(copy);
    }
    Ok(all)
}
