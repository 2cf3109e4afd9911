//! A change of a tree in one pass: nodes are changed and added as soon as they are found.
//!
//! If it fails, a part of the change is done, and the nodes must be dropped.

ghost use Rattle.std.specs.Prelude.{◌≡◌, ◌+◌, ◌-◌, ◌<◌, ◌≤◌, Some, IfOk, OnOk, length, drop, slice_get};
ghost use Rattle.rank_set.specs.Ranks.{none};
ghost use Rattle.arena_tree.specs.declared.node.Link.TheVariants.{FirstOf, NextOf};
ghost use Rattle.arena_tree.specs.declared.node.ChangeStep.TheVariants.{New};
ghost use Rattle.arena_tree.specs.NodeViews.{NodeView, view_of};
ghost use Rattle.arena_tree.specs.ChainForest.{ChainForest, count_rows};
ghost use Rattle.arena_tree.specs.Reading.{forest_at};
ghost use Rattle.arena_tree.specs.Targets.{IsTarget, target_forest};
ghost use Rattle.arena_tree.specs.Plans.{BeginsAt, share_step, cut_step, target_below};
ghost use Rattle.arena_tree.specs.NewChains.{new_marks, new_frames};
ghost use Rattle.arena_tree.specs.Growth.{growth_view, all_at, led_by, below_shared, DoesStep, CanGrow, grown, rows_grown, EntersChain, GrowsByChain};
ghost use Rattle.arena_tree.specs.Trail.{AreHints, AreOwnHints, HasSiblings, below_first, LeadsToOrdered};

use crate::apply::relink;
use crate::merge::{NewChain, Source, ends_at};
use crate::node::{Link, NO_PLACE, NewMarks, Node, Upper};
use crate::shared::common_behind;
use crate::target::{MergeTarget, seek};
use crate::trail::{Hint, Search, follow};
use node_arena::{Arena, Place};
use rank_set::RankSet;
use std::alloc::AllocError;

/// The nodes of a tree that grows, where it begins, and how many rows it has.
#[derive(Drop)]
pub(crate) struct Growth {
    pub(crate) first: Place,
    pub(crate) nodes: Arena<Node>,
    pub(crate) rows: u32,
}

impl Growth {
    /// Adds a node for a chain before the node of the target, leads the target to what comes after it, and returns the
    /// target below it.
    fn put(
        &mut self,
        into: &mut MergeTarget,
        chain: NewChain<'_>,
    ) -> Result<MergeTarget, AllocError>
        requires skip { chain.skip < length chain.path.now }
        requires room { length self.old.nodes.items < 4096 }
        requires rows { self.old.rows ≤ 4096 }
        ensures made { OnOk result (DoesStep self.old self.new (New into.old.link
            (view_of (new_frames chain.entry) (new_marks chain.entry.marks) NO_PLACE into.old.place))) }
        ensures rows { OnOk result (self.new.rows ≡ self.old.rows + length (new_frames chain.entry)) }
        ensures below { IfOk result (λ below. below ≡ all_at (FirstOf (length self.old.nodes.items)) NO_PLACE) }
        ensures rest { OnOk result (into.new ≡ led_by (NextOf (length self.old.nodes.items)) into.old) }
    {
        let node = Node::new(chain.path, chain.skip, chain.marks, NO_PLACE, into.place)?;
        let rows = node.frames().len() as u32;
        self.nodes.reserve(1)?;
        let place = self.nodes.len();
        relink(&mut self.first, &mut self.nodes, into.link, place);
        self.nodes.put(node);
        self.rows += rows;
        into.link = Link::NextOf(place);
        Ok(MergeTarget {
            link: Link::FirstOf(place),
            node: NO_PLACE,
            skip: 0,
            place: NO_PLACE,
        })
    }

    /// Leaves a node its first `shared` frames, with more ranks, above a new node with the frames behind them. Returns
    /// the place of that one.
    fn cut(
        &mut self,
        into: MergeTarget,
        shared: usize,
        marks: NewMarks<'_>,
    ) -> Result<Place, AllocError>
        requires at { into.node < length self.old.nodes.items }
        requires whole { into.place ≡ into.node }
        requires not_empty { 0 < shared }
        requires within { (c : NodeView) → slice_get self.old.nodes.items into.node ≡ Some c
            → into.skip + shared < length c.frames }
        requires room { length self.old.nodes.items < 4096 }
        ensures made { (c : NodeView) → slice_get self.old.nodes.items into.node ≡ Some c
            → OnOk result (DoesStep self.old self.new (cut_step into shared (new_marks marks.entry) c)) }
        ensures rows { self.new.rows ≡ self.old.rows }
        ensures place { IfOk result (λ place. place ≡ length self.old.nodes.items) }
    {
        let node = self.nodes.get(into.node);
        // for the proof: a node has at most `FRAME_LIMIT` frames
        let _len = node.frames().len();
        let more = (shared - 1) as u32;
        let frames = node.frames().behind(into.skip + shared)?;
        let label = node.label().united(marks.label)?;
        let ends = marks.ends.copy()?;
        self.nodes.reserve(1)?;
        let below = self.nodes.len();
        let upper = Upper {
            more,
            label,
            ends,
            below,
        };
        let lower = self.nodes.get_mut(into.node).split(upper, frames);
        self.nodes.put(lower);
        Ok(below)
    }

    /// Gives the first `shared` frames of the target's node more ranks, and returns the target below them.
    fn share(
        &mut self,
        into: MergeTarget,
        shared: usize,
        marks: NewMarks<'_>,
    ) -> Result<MergeTarget, AllocError>
        requires at { into.node < length self.old.nodes.items }
        requires whole { into.place ≡ into.node }
        requires not_empty { 0 < shared }
        requires within { (c : NodeView) → slice_get self.old.nodes.items into.node ≡ Some c
            → into.skip + shared ≤ length c.frames }
        requires room { length self.old.nodes.items < 4096 }
        ensures made { (c : NodeView) → slice_get self.old.nodes.items into.node ≡ Some c
            → OnOk result (DoesStep self.old self.new (share_step into shared (new_marks marks.entry) c)) }
        ensures rows { self.new.rows ≡ self.old.rows }
        ensures below { (c : NodeView) → slice_get self.old.nodes.items into.node ≡ Some c
            → IfOk result (λ below. below ≡ below_shared into shared (length self.old.nodes.items) c) }
    {
        let node = self.nodes.get(into.node);
        let len = node.frames().len();
        if into.skip + shared == len {
            let first = node.first();
            self.nodes.get_mut(into.node).unite(marks)?;
            return Ok(MergeTarget {
                link: Link::FirstOf(into.place),
                node: first,
                skip: 0,
                place: first,
            });
        }
        let place = self.cut(into, shared, marks)?;
        Ok(MergeTarget {
            link: Link::FirstOf(into.place),
            node: place,
            skip: 0,
            place,
        })
    }

    /// Merges the first frames of a chain, which are also those of the node of the target. Leads the target to what
    /// comes after that one, and returns the target below and how many of the path's frames are merged then.
    fn meet(
        &mut self,
        into: &mut MergeTarget,
        chain: NewChain<'_>,
    ) -> Result<(MergeTarget, usize), AllocError>
        requires into { CanGrow self.old.nodes.items into.old }
        requires skip { chain.skip < length chain.path.now }
        requires begins { BeginsAt self.old.nodes.items into.old chain.path.now chain.skip }
        requires no_ranks { chain.no_ranks.now ≡ none }
        requires room { length self.old.nodes.items < 4096 }
        ensures kept { IfOk result (λ r. (chain.entry.skip < r.1) × (r.1 ≤ length chain.entry.path.now)) }
        ensures uncut { IfOk result (λ r. length self.new.nodes.items ≡ length self.old.nodes.items
            → forest_at self.new.nodes.items r.0.node ≡ below_first (target_forest self.old.nodes.items into.old)) }
        ensures enters { IfOk result (EntersChain self.old self.new into.old into.new chain.entry) }
    {
        let node = self.nodes.get(into.node);
        // for the proof: a path has at most `FRAME_LIMIT` frames
        let _lens = (node.frames().len(), chain.path.len());
        let next = node.next();
        let shared = 1 + common_behind(node.frames(), into.skip, chain.path, chain.skip);
        let kept = chain.skip + shared;
        let marks = NewMarks {
            label: chain.marks.label,
            ends: ends_at(chain.path, kept, chain.marks.ends, chain.no_ranks),
        };
        let below = self.share(*into, shared, marks)?;
        *into = into.after(next);
        Ok((below, kept))
    }

    /// Merges the first frames of a chain, or all of them as a new node. Leads the target to what comes after them, and
    /// returns the target below and how many of the path's frames are merged then.
    fn enter(
        &mut self,
        into: &mut MergeTarget,
        chain: NewChain<'_>,
    ) -> Result<(MergeTarget, usize), AllocError>
        requires into { CanGrow self.old.nodes.items into.old }
        requires skip { chain.skip < length chain.path.now }
        requires no_ranks { chain.no_ranks.now ≡ none }
        requires room { length self.old.nodes.items < 4096 }
        requires rows { self.old.rows ≤ 4096 }
        ensures kept { IfOk result (λ r. (chain.entry.skip < r.1) × (r.1 ≤ length chain.entry.path.now)) }
        ensures enters { IfOk result (EntersChain self.old self.new into.old into.new chain.entry) }
    {
        if seek(&self.nodes, into, chain.path.frame(chain.skip)) {
            let (below, kept) = self.meet(into, chain)?;
            return Ok((below, kept));
        }
        let below = self.put(into, chain)?;
        Ok((below, chain.path.len()))
    }

    /// Merges the nodes of another target into a target.
    pub(crate) fn merge_in(
        &mut self,
        mut into: MergeTarget,
        from: Source<'_>,
        mut other: MergeTarget,
    ) -> Result<(), AllocError>
        requires into { CanGrow self.old.nodes.items into }
        requires other { IsTarget from.nodes.now.items other }
        requires no_ranks { from.no_ranks.now ≡ none }
        requires room { length self.old.nodes.items + count_rows (target_forest from.nodes.now.items other) ≤ 4096 }
        requires rows { self.old.rows + count_rows (target_forest from.nodes.now.items other) ≤ 4096 }
        ensures made { OnOk result (growth_view self.new
            ≡ grown (growth_view self.old) into (target_forest from.entry.nodes.now.items other)) }
        ensures rows { OnOk result (self.new.rows ≡ self.old.rows
            + rows_grown (growth_view self.old) into (target_forest from.entry.nodes.now.items other)) }
        ensures few_nodes { OnOk result (length self.new.nodes.items ≤ length self.old.nodes.items
            + count_rows (target_forest from.entry.nodes.now.items other)) }
        ensures few_rows { OnOk result (self.new.rows ≤ self.old.rows
            + count_rows (target_forest from.entry.nodes.now.items other)) }
    {
        while other.node != NO_PLACE {
            let node = from.nodes.get(other.node);
            let chain = NewChain {
                path: node.frames(),
                skip: other.skip,
                marks: NewMarks {
                    label: node.label(),
                    ends: node.ends(),
                },
                no_ranks: from.no_ranks,
            };
            let (below, kept) = self.enter(&mut into, chain)?;
            self.merge_in(below, from, behind(other, node, kept))?;
            other = other.after(node.next());
        }
        Ok(())
    }

    /// Adds a chain.
    fn add_chain(&mut self, mut into: MergeTarget, chain: NewChain<'_>) -> Result<(), AllocError>
        requires into { CanGrow self.old.nodes.items into }
        requires skip { chain.skip < length chain.path.now }
        requires no_ranks { chain.no_ranks.now ≡ none }
        requires room { length self.old.nodes.items + length (new_frames chain) ≤ 4096 }
        requires rows { self.old.rows + length (new_frames chain) ≤ 4096 }
        ensures { OnOk result (GrowsByChain self.old self.new into chain.entry) }
    {
        let (below, kept) = self.enter(&mut into, chain)?;
        if kept < chain.path.len() {
            self.add_chain(
                below,
                NewChain {
                    skip: kept,
                    ..chain
                },
            )?;
        }
        Ok(())
    }

    /// Adds a chain as `add_chain` does. The trail's hints, from that of the level on, say where to look for its
    /// frames, and then where they were found.
    pub(crate) fn add_path(
        &mut self,
        mut into: MergeTarget,
        chain: NewChain<'_>,
        trail: &mut Vec<Hint>,
        level: usize,
    ) -> Result<(), AllocError>
        requires into { CanGrow self.old.nodes.items into }
        requires tree { LeadsToOrdered self.old.nodes.items into.node }
        requires skip { chain.skip < length chain.path.now }
        requires level { level ≤ chain.skip }
        requires no_ranks { chain.no_ranks.now ≡ none }
        requires room { length self.old.nodes.items + length (new_frames chain) ≤ 4096 }
        requires rows { self.old.rows + length (new_frames chain) ≤ 4096 }
        requires hints { AreOwnHints (forest_at self.old.nodes.items into.node) trail.old.items }
        ensures hints { OnOk result ((k : ChainForest) → HasSiblings k (forest_at self.old.nodes.items into.node)
            → AreHints k trail.old.items → AreHints k trail.new.items) }
        ensures grows { OnOk result (GrowsByChain self.old self.new into chain.entry) }
    {
        let search = Search {
            nodes: &self.nodes,
            root: into.node,
            level,
        };
        let frame = chain.path.frame(chain.skip);
        if follow(search, &mut into, frame, trail)? {
            let before = self.nodes.len();
            let (below, kept) = self.meet(&mut into, chain)?;
            if kept == chain.path.len() {
                return Ok(());
            }
            let chain = NewChain {
                skip: kept,
                ..chain
            };
            if self.nodes.len() == before {
                self.add_path(below, chain, trail, level + 1)?;
                return Ok(());
            }
            // A node was cut: its lower part is the only node there, and the path leaves it.
            self.add_chain(below, chain)?;
            return Ok(());
        }
        self.add_chain(into, chain)?;
        Ok(())
    }
}

/// What the node of a target has behind its first `kept` frames: more frames, or the nodes below it.
fn behind(at: MergeTarget, node: &Node, kept: usize) -> MergeTarget
    requires { kept ≤ length node.now.frames }
    ensures { result ≡ target_below at (drop kept node.now.frames) kept at.place node.now.first }
{
    if kept == node.frames().len() {
        let first = node.first();
        return MergeTarget {
            link: Link::FirstOf(at.place),
            node: first,
            skip: 0,
            place: first,
        };
    }
    MergeTarget {
        link: Link::FirstOf(at.place),
        node: at.node,
        skip: kept,
        place: at.place,
    }
}
