//! Where a chain is merged, and the search for a frame among siblings.

ghost use Rattle.std.specs.Prelude.{◌≡◌, cond};
ghost use Rattle.std.specs.declared.cmp.Ordering.TheVariants.{Less, Equal};
ghost use Rattle.arena_tree.specs.Reading.{frame_side};
ghost use Rattle.arena_tree.specs.Targets.{IsTarget, target_forest, IsAfter, SkipsSiblings};
ghost use Rattle.arena_tree.specs.Growth.{CanGrow};

use crate::node::{Link, NO_PLACE, Node};
use node_arena::{Arena, Place};
use std::cmp::Ordering;

/// A forest that nodes are merged into: the nodes from a place on, or what a node has behind some of its frames.
#[derive(Clone, Copy)]
pub(crate) struct MergeTarget {
    /// The link that leads to the forest.
    pub(crate) link: Link,
    /// The node to be read.
    pub(crate) node: Place,
    /// How many of that node's frames are above the forest. If there are any, the node's siblings
    /// are not of the forest.
    pub(crate) skip: usize,
    /// The place where the forest begins after the steps that are planned.
    pub(crate) place: Place,
}

impl MergeTarget {
    /// What follows the first node of the forest, whose next sibling is given.
    pub(crate) fn after(self, next: Place) -> MergeTarget
        ensures { IsAfter self next result }
    {
        let node = if self.skip == 0 { next } else { NO_PLACE };
        MergeTarget {
            link: Link::NextOf(self.place),
            node,
            skip: 0,
            place: node,
        }
    }
}

/// Goes on along siblings to a frame, or to the first node behind it, and says whether the frame is there.
pub(crate) fn seek(nodes: &Arena<Node>, into: &mut MergeTarget, frame: &str) -> bool
    requires { IsTarget nodes.now.items into.old }
    ensures target { IsTarget nodes.now.items into.new }
    ensures grows { CanGrow nodes.now.items into.old → CanGrow nodes.now.items into.new }
    ensures side { frame_side frame.now (target_forest nodes.now.items into.new) ≡ cond result Equal Less }
    ensures steps { SkipsSiblings nodes.now.items frame.now into.old into.new }
{
    while into.node != NO_PLACE {
        let node = nodes.get(into.node);
        let own = node.frame(into.skip);
        // Most frames that are looked for are there, and one test of whole texts is cheap.
        if frame == own {
            return true;
        }
        match frame.cmp(own) {
            Ordering::Less => return false,
            Ordering::Equal => return true,
            Ordering::Greater => *into = into.after(node.next()),
        }
    }
    false
}
