//! Hints of where the next path begins among siblings, and the search that starts at them.

ghost use Rattle.std.specs.Prelude.{◌≡◌, ◌≢◌, true, IfOk, IfSome};
ghost use Rattle.arena_tree.specs.ChainForest.{ChainForest};
ghost use Rattle.arena_tree.specs.Reading.{forest_at};
ghost use Rattle.arena_tree.specs.Targets.{IsTarget, SkipsSiblings};
ghost use Rattle.arena_tree.specs.Trail.{IsLaterSibling, AreHints, AreOwnHints, HasSiblings, searched, LeadsToOrdered, IsInTree, IsStart, IsFound};
ghost use Rattle.arena_tree.specs.Growth.{CanGrow};

use crate::node::{NO_PLACE, Node};
use crate::target::MergeTarget;
use node_arena::{Arena, Place};
use std::alloc::AllocError;
use std::cmp::Ordering;

/// A place among the siblings that begin with the node at `first`. The search for a frame starts there, unless the
/// frame comes before it.
#[derive(Clone, Copy)]
pub(crate) struct Hint {
    pub(crate) first: Place,
    pub(crate) later: Place,
}

/// Where the frames of a path are looked for: the nodes of a tree, the place of its first node, and the level of the
/// trail.
#[derive(Clone, Copy)]
pub(crate) struct Search<'a> {
    pub(crate) nodes: &'a Arena<Node>,
    pub(crate) root: Place,
    pub(crate) level: usize,
}

/// The last of the siblings from `next` on whose first frame isn't greater than a frame. They are siblings of the node
/// at `first`, in the tree that begins at `root`.
fn last_up_to(
    nodes: &Arena<Node>,
    root: Place,
    first: Place,
    mut next: Place,
    frame: &str,
) -> Option<Place>
    requires tree { LeadsToOrdered nodes.now.items root }
    requires next { next ≢ NO_PLACE → IsLaterSibling (forest_at nodes.now.items root) first next }
    ensures { IfSome result (λ at. IsStart nodes.now.items root first frame.now at) }
{
    let mut last = None;
    while next != NO_PLACE {
        let node = nodes.get(next);
        let own = node.frame(0);
        // Most frames that are looked for are there, and one test of whole texts is cheap.
        if frame == own {
            return Some(next);
        }
        match frame.cmp(own) {
            Ordering::Less => return last,
            Ordering::Equal => return Some(next),
            Ordering::Greater => {
                last = Some(next);
                next = node.next();
            }
        }
    }
    last
}

/// The last of the siblings from `first` on whose first frame isn't greater than a frame. The search starts at the hint
/// of the level, if that is for these siblings and doesn't come too late.
fn find_start(search: Search<'_>, first: Place, trail: &Vec<Hint>, frame: &str) -> Option<Place>
    requires tree { LeadsToOrdered search.nodes.now.items search.root }
    requires first { IsLaterSibling (searched search) first first }
    requires hints { AreOwnHints (searched search) trail.now.items }
    ensures { IfSome result (λ at.
        IsStart search.entry.nodes.now.items search.entry.root first frame.now at) }
{
    if let Some(&hint) = trail.get(search.level) {
        if hint.first == first {
            let start = last_up_to(search.nodes, search.root, first, hint.later, frame);
            if start.is_some() {
                return start;
            }
        }
    }
    last_up_to(search.nodes, search.root, first, first, frame)
}

/// Makes a hint that of a level, and drops those of the levels below it unless it was that already.
fn remember(trail: &mut Vec<Hint>, level: usize, hint: Hint) -> Result<(), AllocError>
    ensures hints { (k : ChainForest) → AreHints k trail.old.items → IsLaterSibling k hint.first hint.later
        → AreHints k trail.new.items }
    ensures own { (k : ChainForest) → AreOwnHints k trail.old.items → IsLaterSibling k hint.first hint.later
        → AreOwnHints k trail.new.items }
{
    if let Some(&known) = trail.get(level) {
        if known.first == hint.first && known.later == hint.later {
            return Ok(());
        }
    }
    trail.truncate(level);
    trail.push(hint)?;
    Ok(())
}

/// Leads a target on to the last sibling whose first frame isn't greater than a frame, if there is one, and says
/// whether that is the frame. Starts at the hint of the level, and leaves one there.
pub(crate) fn follow(
    search: Search<'_>,
    into: &mut MergeTarget,
    frame: &str,
    trail: &mut Vec<Hint>,
) -> Result<bool, AllocError>
    requires target { IsTarget search.nodes.now.items into.old }
    requires tree { LeadsToOrdered search.nodes.now.items search.root }
    requires inside { IsInTree search.nodes.now.items search.root into.old }
    requires hints { AreOwnHints (searched search) trail.old.items }
    ensures hints { (k : ChainForest) → HasSiblings k (searched search.entry)
        → AreHints k trail.old.items → AreHints k trail.new.items }
    ensures own { AreOwnHints (searched search.entry) trail.new.items }
    ensures grows { CanGrow search.entry.nodes.now.items into.old → CanGrow search.entry.nodes.now.items into.new }
    ensures later { IfOk result (λ found. found ≡ true
        → IsLaterSibling (searched search.entry) into.old.node into.new.node) }
    ensures target { IsTarget search.entry.nodes.now.items into.new }
    ensures found { IfOk result (λ found. found ≡ true
        → IsFound search.entry.nodes.now.items search.entry.root frame.now into.new) }
    ensures steps { SkipsSiblings search.entry.nodes.now.items frame.now into.old into.new }
{
    let first = into.node;
    if into.skip != 0 || first == NO_PLACE {
        return Ok(false);
    }
    let Some(at) = find_start(search, first, trail, frame) else {
        return Ok(false);
    };
    remember(trail, search.level, Hint { first, later: at })?;
    into.node = at;
    into.place = at;
    Ok(frame == search.nodes.get(at).frame(0))
}
