//! Nodes by first child and next sibling, each for a chain of rows.

ghost use Rattle.std.specs.Prelude.{◌≡◌, ◌<◌, slice_get, Some, IfOk, OnOk, IsTrue, length, drop};
ghost use Rattle.call_path.specs.Good.{is_good_frame};
ghost use Rattle.arena_tree.specs.NodeViews.{view_of, view_behind};
ghost use Rattle.arena_tree.specs.NewChains.{new_marks};
ghost use Rattle.arena_tree.specs.Links.{with_first, with_next};
ghost use Rattle.arena_tree.specs.Steps.{with_more, with_more_marks, with_united, with_frames};

use call_path::CallPath;
use node_arena::Place;
use rank_set::RankSet;
use std::alloc::AllocError;
use std::marker::Model;
use std::mem;

/// A link that leads nowhere.
pub(crate) const NO_PLACE: Place = 4_294_967_295;

/// The frames of rows one below the other, the ranks that pass them, and those whose path ends at the last.
#[derive(Drop)]
pub(crate) struct Node {
    frames: CallPath,
    label: RankSet,
    ends: RankSet,
    first: Place,
    next: Place,
}

impl Model for Node {
    ghost use Rattle.arena_tree.specs.NodeViews.{NodeView};

    ghost Value = { NodeView };

    ghost view = { λ a. record { frames = a.frames; label = a.label; ends = a.ends; first = a.first; next = a.next } };
}

/// Where a place is written.
#[derive(Clone, Copy)]
pub(crate) enum Link {
    /// Where the tree begins.
    Top,
    /// The first child of a node.
    FirstOf(Place),
    /// The next sibling of a node.
    NextOf(Place),
}

/// The marks of a chain: the ranks that pass its rows, and those whose path ends at the last of them.
#[derive(Clone, Copy)]
pub(crate) struct NewMarks<'a> {
    pub(crate) label: &'a RankSet,
    pub(crate) ends: &'a RankSet,
}

/// What a node keeps when it is split: its first frame and so many more, these marks, and the place of the node below.
#[derive(Drop)]
pub(crate) struct Upper {
    pub(crate) more: u32,
    pub(crate) label: RankSet,
    pub(crate) ends: RankSet,
    pub(crate) below: Place,
}

/// A step of a change.
#[derive(Drop)]
pub(crate) enum ChangeStep {
    /// The node at a place gets these marks.
    Old(Place, RankSet, RankSet),
    /// The node at a place keeps its first frame and so many more, gets these marks, and stands above a node more.
    Cut(Place, u32, RankSet, RankSet, Node),
    /// A node more, to which the link leads.
    New(Link, Node),
}

impl Node {
    /// Frame `i` of its rows.
    pub(crate) fn frame(&self, i: usize) -> &str
        requires { i < length self.now.frames }
        ensures frame { slice_get self.now.frames i ≡ Some result.now }
        ensures good { IsTrue (is_good_frame result.now) }
    {
        self.frames.frame(i)
    }

    pub(crate) fn frames(&self) -> &CallPath
        ensures { result.now ≡ self.now.frames }
    {
        &self.frames
    }

    pub(crate) fn label(&self) -> &RankSet
        ensures { result.now ≡ self.now.label }
    {
        &self.label
    }

    pub(crate) fn ends(&self) -> &RankSet
        ensures { result.now ≡ self.now.ends }
    {
        &self.ends
    }

    pub(crate) fn first(&self) -> Place
        ensures { result ≡ self.now.first }
    {
        self.first
    }

    pub(crate) fn next(&self) -> Place
        ensures { result ≡ self.now.next }
    {
        self.next
    }

    /// A node with the frames behind the first `skip`, the same marks, and other links.
    pub(crate) fn behind(&self, skip: usize, first: Place, next: Place) -> Result<Node, AllocError>
        requires { skip < length self.now.frames }
        ensures { IfOk result (λ node. node ≡ view_behind skip first next self.now) }
    {
        let marks = NewMarks {
            label: &self.label,
            ends: &self.ends,
        };
        Node::new(&self.frames, skip, marks, first, next)
    }

    /// A node with the frames of a path behind the first `skip`.
    pub(crate) fn new(
        frames: &CallPath,
        skip: usize,
        marks: NewMarks<'_>,
        first: Place,
        next: Place,
    ) -> Result<Node, AllocError>
        requires { skip < length frames.now }
        ensures { IfOk result (λ node. node ≡ view_of (drop skip frames.now) (new_marks marks.entry) first next) }
    {
        Ok(Node {
            frames: frames_behind(frames, skip)?,
            label: marks.label.copy()?,
            ends: marks.ends.copy()?,
            first,
            next,
        })
    }

    /// Unites marks into its own.
    pub(crate) fn add_marks(&mut self, label: RankSet, ends: RankSet)
        ensures { self.new ≡ with_more_marks label ends self.old }
    {
        put_more(&mut self.label, label);
        put_more(&mut self.ends, ends);
    }

    /// Unites ranks into its marks. Where it fails, a part of them may be there.
    pub(crate) fn unite(&mut self, marks: NewMarks<'_>) -> Result<(), AllocError>
        ensures { OnOk result (self.new ≡ with_united (new_marks marks.entry) self.old self.old) }
    {
        self.label.union_into(marks.label)?;
        // Most often no path ends at the node.
        if !marks.ends.is_empty() {
            self.ends.union_into(marks.ends)?;
        }
        Ok(())
    }

    /// Keeps its first frame and so many more, above the node at a place. It allocates nothing.
    pub(crate) fn keep_frames(&mut self, upper: Upper)
        ensures { self.new ≡ with_frames upper.more upper.label upper.ends upper.below self.old }
    {
        self.frames.cut(upper.more as usize + 1);
        drop(mem::replace(&mut self.label, upper.label));
        drop(mem::replace(&mut self.ends, upper.ends));
        self.first = upper.below;
    }

    /// Keeps its first frame and so many more, with other marks, above the node at a place. Returns a node with the
    /// frames behind them, and the marks and the nodes below that it had. It allocates nothing.
    pub(crate) fn split(&mut self, upper: Upper, frames: CallPath) -> Node
        requires { 0 < length frames }
        ensures upper { self.new ≡ with_frames upper.more upper.label upper.ends upper.below self.old }
        ensures lower { result ≡ view_of frames (self.old.label, self.old.ends) self.old.first NO_PLACE }
    {
        self.frames.cut(upper.more as usize + 1);
        Node {
            frames,
            label: mem::replace(&mut self.label, upper.label),
            ends: mem::replace(&mut self.ends, upper.ends),
            first: mem::replace(&mut self.first, upper.below),
            next: NO_PLACE,
        }
    }

    pub(crate) fn set_first(&mut self, to: Place)
        ensures { self.new ≡ with_first to self.old }
    {
        self.first = to;
    }

    pub(crate) fn set_next(&mut self, to: Place)
        ensures { self.new ≡ with_next to self.old }
    {
        self.next = to;
    }
}

/// The frames of a path behind the first `skip`. Most often these are all, which are copied as they stand.
fn frames_behind(path: &CallPath, skip: usize) -> Result<CallPath, AllocError>
    requires { skip < length path.now }
    ensures { IfOk result (λ rest. rest ≡ drop skip path.now) }
{
    if skip == 0 {
        return path.copy();
    }
    path.behind(skip)
}

/// Replaces a set by what it becomes, unless that has no ranks. It allocates nothing.
fn put_more(ranks: &mut RankSet, more: RankSet)
    ensures { ranks.new ≡ with_more ranks.old more }
{
    if !more.is_empty() {
        drop(mem::replace(ranks, more));
    }
}
