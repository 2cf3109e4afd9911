//! The row of a tree with a given number.

ghost use Rattle.std.specs.Prelude.{◌≡◌, ◌+◌, ◌<◌, ◌≤◌, Some, IfOk, IfErr, length, drop, slice_get};
ghost use Rattle.rank_set.specs.Ranks.{none};
ghost use Rattle.prefix_tree.specs.Chains.{chain_rows, chained};
ghost use Rattle.arena_tree.specs.ChainForest.{count_rows, rows_of_chains, row_ends};
ghost use Rattle.arena_tree.specs.Reading.{forest_at, LeadsToForest};
ghost use Rattle.arena_tree.specs.ReadingOrder.{shows, row_seen};

use crate::merge::ends_at;
use crate::node::{NO_PLACE, Node};
use node_arena::{Arena, Place};
use prefix_tree::{Chain, Row};
use rank_set::RankSet;

/// Row `i` of the nodes from a place on, whose first rows have the given depth. Where there are not so many rows, the
/// error is what is left of `i` behind them.
pub(crate) fn find_row<'a>(
    nodes: &'a Arena<Node>,
    mut at: Place,
    depth: usize,
    mut i: usize,
    no_ranks: &'a RankSet,
) -> Result<Row<'a>, usize>
    requires leads { LeadsToForest nodes.now.items at }
    requires no_ranks { no_ranks.now ≡ none }
    requires depth { depth + count_rows (forest_at nodes.now.items at) ≤ 8192 }
    ensures found { IfOk result (λ row.
        slice_get (shows depth (rows_of_chains (forest_at nodes.now.items at))) i ≡ Some (row_seen row)) }
    ensures left { IfErr result (λ left. left + count_rows (forest_at nodes.now.items at) ≡ i) }
{
    while at != NO_PLACE {
        let node = nodes.get(at);
        let len = node.frames().len();
        if i < len {
            return Ok(chain_row(node, depth, i, no_ranks));
        }
        match find_row(nodes, node.first(), depth + len, i - len, no_ranks) {
            Ok(row) => return Ok(row),
            Err(left) => {
                i = left;
                at = node.next();
            }
        }
    }
    Err(i)
}

/// Row `i` of a node, whose first row has the given depth.
pub(crate) fn chain_row<'a>(
    node: &'a Node,
    depth: usize,
    i: usize,
    no_ranks: &'a RankSet,
) -> Row<'a>
    requires within { i < length node.now.frames }
    requires no_ranks { no_ranks.now ≡ none }
    requires depth { depth ≤ 8192 }
    ensures depth { result.depth ≡ depth + i }
    ensures frame { slice_get node.now.frames i ≡ Some result.frame.now }
    ensures label { result.label.now ≡ node.now.label }
    ensures ends { result.ends.now ≡ row_ends (drop (i + 1) node.now.frames) node.now.ends }
{
    // for the proof: a node has at most `FRAME_LIMIT` frames
    let _len = node.frames().len();
    Row {
        depth: depth + i,
        frame: node.frame(i),
        label: node.label(),
        ends: ends_at(node.frames(), i + 1, node.ends(), no_ranks),
    }
}

/// The rows of a node from row `i` on, where its first row has the given depth.
pub(crate) fn chain_from(node: &Node, depth: usize, i: usize) -> Chain<'_>
    requires within { i < length node.now.frames }
    requires depth { depth ≤ 8192 }
    ensures rows { chain_rows result
        ≡ chained (depth + i) (drop i node.now.frames) (node.now.label, node.now.ends) }
    ensures depth { result.depth ≡ depth + i }
    ensures frames { result.frames.now ≡ node.now.frames }
    ensures skip { result.skip ≡ i }
{
    // for the proof: a node has at most `FRAME_LIMIT` frames
    let _len = node.frames().len();
    Chain {
        depth: depth + i,
        frames: node.frames(),
        skip: i,
        label: node.label(),
        ends: node.ends(),
    }
}
