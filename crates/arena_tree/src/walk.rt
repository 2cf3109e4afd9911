//! A walk over the rows of a tree, from node to node.

ghost use Rattle.std.specs.Prelude.{◌≡◌, ◌+◌, ◌-◌, ◌<◌, ◌≤◌, length, reverse};
ghost use Rattle.std.specs.Vec.{vec_capacity};
ghost use Rattle.arena_tree.specs.Cursors.{with_link, waiting_behind, waiting_next, frame_next};

use crate::node::{NO_PLACE, Node};
use node_arena::Place;
use prefix_tree::{Cursor, WaitingNode};

/// Lets the node that a link leads to wait, if it leads to one. There is room for it.
pub(crate) fn put_link(waiting: &mut Vec<WaitingNode>, place: Place, depth: u32)
    requires { length (with_link place depth (reverse waiting.old.items)) ≤ vec_capacity waiting.old }
    ensures waiting { reverse waiting.new.items ≡ with_link place depth (reverse waiting.old.items) }
    ensures capacity { vec_capacity waiting.old ≤ vec_capacity waiting.new }
{
    if place != NO_PLACE {
        waiting.push_reserved(WaitingNode { place, depth });
    }
}

/// Moves a cursor from one row on to the next. The row is that of a node, which was taken off those that wait.
///
/// Along a chain the node waits again. From its last row on, its siblings wait, and the nodes below it before them.
pub(crate) fn move_on(at: &mut Cursor, node: &Node, top: WaitingNode)
    requires row { at.old.row < 4096 }
    requires frame { at.old.frame < length node.now.frames }
    requires depth { top.depth ≤ 8192 }
    requires room { length (waiting_next node.now top at.old.frame (reverse at.old.waiting.items))
        ≤ vec_capacity at.old.waiting }
    ensures row { at.new.row ≡ at.old.row + 1 }
    ensures waiting { reverse at.new.waiting.items
        ≡ waiting_next node.now top at.old.frame (reverse at.old.waiting.items) }
    ensures frame { at.new.frame ≡ frame_next node.now at.old.frame }
    ensures capacity { vec_capacity at.old.waiting ≤ vec_capacity at.new.waiting }
{
    let len = node.frames().len() as u32;
    at.row += 1;
    at.frame += 1;
    if at.frame < len {
        at.waiting.push_reserved(top);
        return;
    }
    at.frame = 0;
    put_link(&mut at.waiting, node.next(), top.depth);
    put_link(&mut at.waiting, node.first(), top.depth + len);
}

/// Moves a cursor behind the last row of a node, which was taken off those that wait: its siblings wait, and the nodes
/// below it before them.
pub(crate) fn move_past(at: &mut Cursor, node: &Node, top: WaitingNode)
    requires row { at.old.row < 4096 }
    requires frame { at.old.frame < length node.now.frames }
    requires depth { top.depth ≤ 8192 }
    requires room { length (waiting_behind node.now top (reverse at.old.waiting.items)) ≤ vec_capacity at.old.waiting }
    ensures row { at.new.row ≡ at.old.row + (length node.now.frames - at.old.frame) }
    ensures waiting { reverse at.new.waiting.items ≡ waiting_behind node.now top (reverse at.old.waiting.items) }
    ensures frame { at.new.frame ≡ 0 }
    ensures capacity { vec_capacity at.old.waiting ≤ vec_capacity at.new.waiting }
{
    let len = node.frames().len() as u32;
    at.row += (len - at.frame) as usize;
    at.frame = 0;
    put_link(&mut at.waiting, node.next(), top.depth);
    put_link(&mut at.waiting, node.first(), top.depth + len);
}
