//! Planning to merge a path, or the nodes of another tree.

ghost use Rattle.std.specs.Prelude.{◌≡◌, ◌+◌, ◌<◌, ◌≤◌, ◌-◌, IfOk, OnOk, length, drop};
ghost use Rattle.rank_set.specs.Ranks.{none};
ghost use Rattle.arena_tree.specs.ChainForest.{row_ends, count_rows};
ghost use Rattle.arena_tree.specs.Steps.{merge_steps, nodes_added, rows_added};
ghost use Rattle.arena_tree.specs.Reading.{forest_at, LeadsToForest};
ghost use Rattle.arena_tree.specs.NewChains.{new_marks, new_frames};
ghost use Rattle.arena_tree.specs.Targets.{IsTarget, target_forest};
ghost use Rattle.arena_tree.specs.Plans.{plan_with, next_place, HasRoom, BeginsAt, SharesChain, PlansChain};
ghost use Rattle.arena_tree.specs.Trail.{AreHints, searched, LeadsToOrdered, IsInTree, IsBelow};

use crate::node::{Link, NO_PLACE, NewMarks, Node};
use crate::plan::ChangePlan;
use crate::shared::common_behind;
use crate::target::{MergeTarget, seek};
use crate::trail::{Hint, Search, follow};
use call_path::CallPath;
use node_arena::{Arena, Place};
use rank_set::RankSet;
use std::alloc::AllocError;

/// The ranks whose path ends at the last of the first `kept` frames: `ends` if these are all frames, and else none.
pub(crate) fn ends_at<'a>(
    path: &CallPath,
    kept: usize,
    ends: &'a RankSet,
    no_ranks: &'a RankSet,
) -> &'a RankSet
    requires within { kept ≤ length path.now }
    requires no_ranks { no_ranks.now ≡ none }
    ensures { result.now ≡ row_ends (drop kept path.now) ends.now }
{
    let len = path.len();
    if kept == len { ends } else { no_ranks }
}

/// Rows that are planned: those of the frames of a path from frame `skip` on. The same ranks pass them all.
#[derive(Clone, Copy)]
pub(crate) struct NewChain<'a> {
    pub(crate) path: &'a CallPath,
    pub(crate) skip: usize,
    pub(crate) marks: NewMarks<'a>,
    /// The ranks whose path ends at a row before the last: the empty set.
    pub(crate) no_ranks: &'a RankSet,
}

/// The nodes of another tree, and the empty set.
#[derive(Clone, Copy)]
pub(crate) struct Source<'a> {
    pub(crate) nodes: &'a Arena<Node>,
    pub(crate) no_ranks: &'a RankSet,
}

/// Plans the first frames of a chain, which are also those of the first node of the target. Returns the target below
/// them and how many of the path's frames are planned then.
fn share_chain(
    nodes: &Arena<Node>,
    into: &mut MergeTarget,
    chain: NewChain<'_>,
    plan: &mut ChangePlan,
) -> Result<(MergeTarget, usize), AllocError>
    requires target { IsTarget nodes.now.items into.old }
    requires skip { chain.skip < length chain.path.now }
    requires begins { BeginsAt nodes.now.items into.old chain.path.now chain.skip }
    requires no_ranks { chain.no_ranks.now ≡ none }
    requires room { HasRoom plan.old 1 }
    ensures kept { IfOk result (λ r. (chain.entry.skip < r.1) × (r.1 ≤ length chain.entry.path.now)) }
    ensures below { IfOk result (λ r. IsBelow nodes.now.items into.old.node r.0) }
    ensures shares { IfOk result (λ r. SharesChain nodes.now.items into.old into.new r.0
        (new_frames chain.entry) (drop r.1 chain.entry.path.now)
        (new_marks chain.entry.marks) plan.old plan.new) }
{
    let node = nodes.get(into.node);
    // for the proof: a path has at most `FRAME_LIMIT` frames
    let _lens = (node.frames().len(), chain.path.len());
    let shared = 1 + common_behind(node.frames(), into.skip, chain.path, chain.skip);
    let kept = chain.skip + shared;
    let marks = NewMarks {
        label: chain.marks.label,
        ends: ends_at(chain.path, kept, chain.marks.ends, chain.no_ranks),
    };
    let below = plan.share(*into, node, shared, marks)?;
    *into = into.after(node.next());
    Ok((below, kept))
}

/// Plans a chain. Leads the target to what comes after the chain, and returns the target below it.
pub(crate) fn plan_chain(
    nodes: &Arena<Node>,
    into: &mut MergeTarget,
    chain: NewChain<'_>,
    plan: &mut ChangePlan,
) -> Result<MergeTarget, AllocError>
    requires target { IsTarget nodes.now.items into.old }
    requires skip { chain.skip < length chain.path.now }
    requires no_ranks { chain.no_ranks.now ≡ none }
    requires room { HasRoom plan.old (length chain.path.now - chain.skip) }
    ensures { IfOk result (λ below. PlansChain nodes.now.items into.old into.new below
        (new_frames chain.entry) (new_marks chain.entry.marks) plan.old plan.new) }
{
    if seek(nodes, into, chain.path.frame(chain.skip)) {
        let (below, kept) = share_chain(nodes, into, chain, plan)?;
        if kept == chain.path.len() {
            return Ok(below);
        }
        let mut rest = below;
        let last = plan_chain(
            nodes,
            &mut rest,
            NewChain {
                skip: kept,
                ..chain
            },
            plan,
        )?;
        return Ok(last);
    }
    let node = Node::new(chain.path, chain.skip, chain.marks, NO_PLACE, into.place)?;
    let place = plan.put(into.link, node)?;
    into.link = Link::NextOf(place);
    Ok(MergeTarget {
        link: Link::FirstOf(place),
        node: NO_PLACE,
        skip: 0,
        place: NO_PLACE,
    })
}

/// Plans a chain as `plan_chain` does. The trail's hints, from that of the search's level on, say where to look for its
/// frames, and then where they were found.
pub(crate) fn plan_path(
    search: Search<'_>,
    into: &mut MergeTarget,
    chain: NewChain<'_>,
    plan: &mut ChangePlan,
    trail: &mut Vec<Hint>,
) -> Result<MergeTarget, AllocError>
    requires target { IsTarget search.nodes.now.items into.old }
    requires tree { LeadsToOrdered search.nodes.now.items search.root }
    requires inside { IsInTree search.nodes.now.items search.root into.old }
    requires skip { chain.skip < length chain.path.now }
    requires level { search.level ≤ chain.skip }
    requires no_ranks { chain.no_ranks.now ≡ none }
    requires room { HasRoom plan.old (length chain.path.now - chain.skip) }
    requires hints { AreHints (searched search) trail.old.items }
    ensures hints { AreHints (searched search.entry) trail.new.items }
    ensures plans { IfOk result (λ below. PlansChain search.entry.nodes.now.items into.old into.new below
        (new_frames chain.entry) (new_marks chain.entry.marks) plan.old plan.new) }
{
    let frame = chain.path.frame(chain.skip);
    if follow(search, into, frame, trail)? {
        let (below, kept) = share_chain(search.nodes, into, chain, plan)?;
        if kept == chain.path.len() {
            return Ok(below);
        }
        let mut rest = below;
        let chain = NewChain {
            skip: kept,
            ..chain
        };
        let search = Search {
            level: search.level + 1,
            ..search
        };
        let last = plan_path(search, &mut rest, chain, plan, trail)?;
        return Ok(last);
    }
    let last = plan_chain(search.nodes, into, chain, plan)?;
    Ok(last)
}

/// Plans to merge the nodes of another tree from `other` on into a target.
pub(crate) fn plan_merge(
    nodes: &Arena<Node>,
    mut into: MergeTarget,
    from: Source<'_>,
    mut other: Place,
    plan: &mut ChangePlan,
) -> Result<(), AllocError>
    requires target { IsTarget nodes.now.items into }
    requires other { LeadsToForest from.nodes.now.items other }
    requires no_ranks { from.no_ranks.now ≡ none }
    requires room { HasRoom plan.old (count_rows (forest_at from.nodes.now.items other)) }
    ensures steps { OnOk result (plan.new ≡ plan_with plan.old
        (merge_steps into.link (next_place plan.old) (target_forest nodes.now.items into)
        (forest_at from.entry.nodes.now.items other))) }
    ensures places { OnOk result (nodes_added plan.new.steps
        ≤ nodes_added plan.old.steps + count_rows (forest_at from.entry.nodes.now.items other)) }
    ensures rows { OnOk result (rows_added plan.new.steps
        ≤ rows_added plan.old.steps + count_rows (forest_at from.entry.nodes.now.items other)) }
{
    while other != NO_PLACE {
        let node = from.nodes.get(other);
        let chain = NewChain {
            path: node.frames(),
            skip: 0,
            marks: NewMarks {
                label: node.label(),
                ends: node.ends(),
            },
            no_ranks: from.no_ranks,
        };
        let below = plan_chain(nodes, &mut into, chain, plan)?;
        plan_merge(nodes, below, from, node.first(), plan)?;
        other = node.next();
    }
    Ok(())
}
