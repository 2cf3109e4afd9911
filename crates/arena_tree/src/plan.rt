//! The steps of a change, planned before anything is changed.

ghost use Rattle.std.specs.Prelude.{◌≡◌, ◌+◌, ◌-◌, ◌<◌, ◌≤◌, [], ◌∷◌, IfOk, OnOk, length, drop};
ghost use Rattle.arena_tree.specs.declared.node.ChangeStep.TheVariants.{Old, Cut, New};
ghost use Rattle.arena_tree.specs.NewChains.{new_marks};
ghost use Rattle.arena_tree.specs.Steps.{more_for, nodes_added, rows_added};
ghost use Rattle.arena_tree.specs.Plans.{plan_with, next_place, HasRoom, share_step, cut_step, target_below};

use crate::node::{ChangeStep, Link, NO_PLACE, NewMarks, Node};
use crate::target::MergeTarget;
use node_arena::Place;
use rank_set::RankSet;
use std::alloc::AllocError;
use std::marker::Model;

/// Steps, with the number of nodes before them, the place of the next new node, and the number of new rows.
#[derive(Drop)]
pub(crate) struct ChangePlan {
    steps: Vec<ChangeStep>,
    base: u32,
    next: u32,
    rows: u32,
}

impl Model for ChangePlan {
    ghost use Rattle.std.specs.Prelude.{◌≡◌, ◌+◌};
    ghost use Rattle.arena_tree.specs.Steps.{nodes_added, rows_added};
    ghost use Rattle.arena_tree.specs.Plans.{PlanView};

    ghost Value = { PlanView };

    ghost view = { λ a. record { base = a.base; steps = a.steps.items } };

    ghost invariant = { λ a. record {
      next : a.next ≡ a.base + nodes_added a.steps.items;
      rows : a.rows ≡ rows_added a.steps.items;
    } };
}

impl ChangePlan {
    /// No steps, in the vector that is given, for a tree of `base` nodes.
    pub(crate) fn in_room(mut steps: Vec<ChangeStep>, base: u32) -> ChangePlan
        ensures base { result.base ≡ base }
        ensures steps { result.steps ≡ [] }
    {
        steps.clear();
        ChangePlan {
            steps,
            base,
            next: base,
            rows: 0,
        }
    }

    /// How many nodes the steps add.
    pub(crate) fn nodes(&self) -> u32
        ensures { result ≡ nodes_added self.now.steps }
    {
        self.next - self.base
    }

    /// How many rows the steps add.
    pub(crate) fn rows(&self) -> u32
        ensures { result ≡ rows_added self.now.steps }
    {
        self.rows
    }

    /// The steps.
    pub(crate) fn into_steps(self) -> Vec<ChangeStep>
        ensures { result.items ≡ self.steps }
    {
        let ChangePlan {
            steps,
            base: _,
            next: _,
            rows: _,
        } = self;
        steps
    }

    /// Plans a new node, to which the link leads, and returns its place.
    pub(crate) fn put(&mut self, link: Link, node: Node) -> Result<Place, AllocError>
        requires { HasRoom self.old (length node.frames) }
        ensures place { IfOk result (λ place. place ≡ next_place self.old) }
        ensures plan { OnOk result (self.new ≡ plan_with self.old (New link node ∷ [])) }
    {
        let place = self.next;
        let rows = node.frames().len() as u32;
        self.steps.push(ChangeStep::New(link, node))?;
        self.next = place + 1;
        self.rows += rows;
        Ok(place)
    }

    /// Plans that the first node of the target keeps `shared` of its frames and has the ranks besides;
    /// the frames behind them, if there are any, go to a new node. Returns the target below it.
    pub(crate) fn share(
        &mut self,
        into: MergeTarget,
        node: &Node,
        shared: usize,
        marks: NewMarks<'_>,
    ) -> Result<MergeTarget, AllocError>
        requires room { HasRoom self.old 1 }
        requires not_empty { 0 < shared }
        requires within { into.skip + shared ≤ length node.now.frames }
        ensures plan { OnOk result (self.new
            ≡ plan_with self.old (share_step into shared (new_marks marks.entry) node.now ∷ [])) }
        ensures below { IfOk result (λ below. below ≡ target_below into (drop (into.skip + shared) node.now.frames)
            (into.skip + shared) (next_place self.old) node.now.first) }
    {
        let len = node.frames().len();
        let kept = into.skip + shared;
        if kept == len {
            self.mark(into.place, node, marks)?;
            return Ok(MergeTarget {
                link: Link::FirstOf(into.place),
                node: node.first(),
                skip: 0,
                place: node.first(),
            });
        }
        let place = self.cut(into, node, shared, marks)?;
        Ok(MergeTarget {
            link: Link::FirstOf(into.place),
            node: into.node,
            skip: kept,
            place,
        })
    }

    /// Plans that a node has the ranks besides its own.
    fn mark(&mut self, at: Place, node: &Node, marks: NewMarks<'_>) -> Result<(), AllocError>
        ensures { OnOk result (self.new ≡ plan_with self.old (Old at
            (more_for node.now.label marks.entry.label.now) (more_for node.now.ends marks.entry.ends.now) ∷ [])) }
    {
        let label = more_for(node.label(), marks.label)?;
        let ends = more_for(node.ends(), marks.ends)?;
        self.steps.push(ChangeStep::Old(at, label, ends))?;
        Ok(())
    }

    /// Plans that the first node of the target keeps `shared` of its frames, above a new node with the frames behind
    /// them, and returns the place of that one.
    fn cut(
        &mut self,
        into: MergeTarget,
        node: &Node,
        shared: usize,
        marks: NewMarks<'_>,
    ) -> Result<Place, AllocError>
        requires room { HasRoom self.old 1 }
        requires not_empty { 0 < shared }
        requires within { into.skip + shared < length node.now.frames }
        ensures place { IfOk result (λ place. place ≡ next_place self.old) }
        ensures plan { OnOk result (self.new
            ≡ plan_with self.old (cut_step into shared (new_marks marks.entry) node.now ∷ [])) }
    {
        let place = self.next;
        // for the proof: a node has at most `FRAME_LIMIT` frames
        let _len = node.frames().len();
        let more = (shared - 1) as u32;
        let lower = node.behind(into.skip + shared, node.first(), NO_PLACE)?;
        let label = node.label().united(marks.label)?;
        let ends = marks.ends.copy()?;
        self.steps
            .push(ChangeStep::Cut(into.place, more, label, ends, lower))?;
        self.next = place + 1;
        Ok(place)
    }
}

/// What a step has for a set that gets the ranks of another: their union, or the other where that has no ranks.
fn more_for(ranks: &RankSet, other: &RankSet) -> Result<RankSet, AllocError>
    ensures { IfOk result (λ more. more ≡ more_for ranks.now other.now) }
{
    if other.is_empty() {
        return other.copy();
    }
    ranks.united(other)
}
