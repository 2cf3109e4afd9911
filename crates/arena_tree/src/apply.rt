//! What the steps of a change do to the nodes of an arena. Nothing here allocates, so nothing can fail.

ghost use Rattle.std.specs.Prelude.{◌≡◌, ◌≤◌, ◌+◌};
ghost use Rattle.arena_tree.specs.Links.{with_change, with_first, with_next, relink, first_after, linked};
ghost use Rattle.arena_tree.specs.Steps.{with_more_marks, with_frames, apply_step, apply_steps, nodes_added, nodes_added_by};

use crate::node::{ChangeStep, Link, Node, Upper};
use node_arena::{Arena, Place};
use rank_set::RankSet;
use std::collections::VecDeque;

// Gives the node at a place more marks, if there is one.
fn mark(nodes: &mut Arena<Node>, at: Place, label: RankSet, ends: RankSet)
    ensures items { nodes.new.items ≡ with_change at (with_more_marks label ends) nodes.old.items }
    ensures spare { nodes.new.spare ≡ nodes.old.spare }
{
    if at < nodes.len() {
        nodes.get_mut(at).add_marks(label, ends);
    }
}

// Leaves the node at a place its first frame and so many more, if there is one, above the node at another.
fn cut(nodes: &mut Arena<Node>, at: Place, upper: Upper)
    ensures items { nodes.new.items
        ≡ with_change at (with_frames upper.more upper.label upper.ends upper.below) nodes.old.items }
    ensures spare { nodes.new.spare ≡ nodes.old.spare }
{
    if at < nodes.len() {
        nodes.get_mut(at).keep_frames(upper);
    }
}

fn set_first(nodes: &mut Arena<Node>, at: Place, to: Place)
    ensures items { nodes.new.items ≡ with_change at (with_first to) nodes.old.items }
    ensures spare { nodes.new.spare ≡ nodes.old.spare }
{
    if at < nodes.len() {
        nodes.get_mut(at).set_first(to);
    }
}

fn set_next(nodes: &mut Arena<Node>, at: Place, to: Place)
    ensures items { nodes.new.items ≡ with_change at (with_next to) nodes.old.items }
    ensures spare { nodes.new.spare ≡ nodes.old.spare }
{
    if at < nodes.len() {
        nodes.get_mut(at).set_next(to);
    }
}

// Leads a link to a place.
pub(crate) fn relink(first: &mut Place, nodes: &mut Arena<Node>, link: Link, to: Place)
    ensures first { first.new ≡ first_after link to first.old }
    ensures items { nodes.new.items ≡ relink link to nodes.old.items }
    ensures spare { nodes.new.spare ≡ nodes.old.spare }
{
    match link {
        Link::Top => *first = to,
        Link::FirstOf(at) => set_first(nodes, at, to),
        Link::NextOf(at) => set_next(nodes, at, to),
    }
}

// Does one step.
fn apply_one(first: &mut Place, nodes: &mut Arena<Node>, one: ChangeStep)
    requires { nodes_added_by one ≤ nodes.old.spare }
    ensures held { linked first.new nodes.new.items ≡ apply_step (linked first.old nodes.old.items) one }
    ensures spare { nodes.new.spare + nodes_added_by one ≡ nodes.old.spare }
{
    match one {
        ChangeStep::Old(at, label, ends) => mark(nodes, at, label, ends),
        ChangeStep::Cut(at, more, label, ends, node) => {
            let upper = Upper {
                more,
                label,
                ends,
                below: nodes.len(),
            };
            cut(nodes, at, upper);
            nodes.put(node);
        }
        ChangeStep::New(link, node) => {
            let place = nodes.len();
            relink(first, nodes, link, place);
            nodes.put(node);
        }
    }
}

/// Does steps one after another, for whose new nodes there is room. Returns the vector that they were in.
pub(crate) fn apply(
    first: &mut Place,
    nodes: &mut Arena<Node>,
    steps: Vec<ChangeStep>,
) -> Vec<ChangeStep>
    requires { nodes_added steps.items ≤ nodes.old.spare }
    ensures { linked first.new nodes.new.items ≡ apply_steps (linked first.old nodes.old.items) steps.items }
{
    let mut left = VecDeque::from_vec(steps);
    while let Some(one) = left.pop_front() {
        apply_one(first, nodes, one);
    }
    left.into_vec()
}
