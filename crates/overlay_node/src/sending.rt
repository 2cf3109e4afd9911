//! The frames that a node sends.

ghost use Rattle.std.specs.Prelude.{◌≢◌, ◌<◌, IfOk, OnOk, Some};
ghost use Rattle.rank_set.specs.Ranks.{none};
ghost use Rattle.stat_plan.specs.Plans.{nodes};
ghost use Rattle.merge_filter.specs.Contributions.{HasWave, IsPartialMerge, coverage_of};
ghost use Rattle.overlay_core.specs.Nodes.{Up, Done, Attach};
ghost use Rattle.stat_plan.specs.Machine.Overlays.{to_parent};
ghost use Rattle.overlay_node.specs.Acting.{done_to};
ghost use Rattle.overlay_node.specs.Contexts.{IsNodeContext, SendsAt, dones_at};
ghost use Rattle.overlay_node.specs.Frames.{IsFrameOf};
ghost use Rattle.overlay_node.specs.Outputs.{Sends};

use crate::context::NodeContext;
use merge_filter::Contribution;
use packet_frame::{Frame, Packet, encode, encode_up};
use prefix_tree::PrefixTree;
use stat_plan::Plan;
use std::alloc::{AllocError, Global};

// The frame of what has come in of a wave. The plan says that its numbers are small.
fn up_frame<T: PrefixTree>(
    alloc: Global,
    plan: &Plan,
    part: &Contribution<T>,
) -> Result<Frame, AllocError>
    requires merge { IsPartialMerge plan.now part.now }
    requires not_empty { coverage_of part.now ≢ none }
    ensures { IfOk result (IsFrameOf plan.now (Up part.now.stream part.now.wave (coverage_of part.now))) }
{
    plan.invariant();
    encode_up(alloc, part.stream(), part.wave(), part.tree())
}

// The frame that says that a wave is closed.
fn done_frame<T: PrefixTree>(alloc: Global, plan: &Plan, s: u8, w: u8) -> Result<Frame, AllocError>
    requires { HasWave plan.now s w }
    ensures { IfOk result (IsFrameOf plan.now (Done s w)) }
{
    plan.invariant();
    encode::<T>(alloc, &Packet::Done { stream: s, wave: w })
}

// The frame by which a node asks to be taken as a child.
fn attach_frame<T: PrefixTree>(alloc: Global, plan: &Plan) -> Result<Frame, AllocError>
    ensures { IfOk result (IsFrameOf plan.now Attach) }
{
    encode::<T>(alloc, &Packet::Attach)
}

/// Sends what has come in of a wave to the parent, if there is one.
pub fn send_up<T: PrefixTree>(
    context: &NodeContext<'_>,
    part: &Contribution<T>,
    sends: &mut Vec<(u32, Frame)>,
) -> Result<(), AllocError>
    requires merge { IsPartialMerge context.now.plan.now part.now }
    requires not_empty { coverage_of part.now ≢ none }
    ensures { OnOk result (SendsAt context.now
        (to_parent context.now.kin.now.kin.parent (Up part.now.stream part.now.wave (coverage_of part.now)))
        sends.old.items sends.new.items) }
{
    if let Some(parent) = context.kin.parent() {
        let frame = up_frame(*sends.allocator(), context.plan, part)?;
        sends.push((parent, frame))?;
    }
    Ok(())
}

/// Tells a node that a wave is closed, if the node serves the stream.
pub fn send_done<T: PrefixTree>(
    plan: &Plan,
    to: u32,
    s: u8,
    w: u8,
    sends: &mut Vec<(u32, Frame)>,
) -> Result<(), AllocError>
    requires node { to < nodes plan.now }
    requires wave { HasWave plan.now s w }
    ensures { OnOk result (Sends plan.now (done_to plan.now s w to) sends.old.items sends.new.items) }
{
    if plan.serves(to, s) {
        let frame = done_frame::<T>(*sends.allocator(), plan, s, w)?;
        sends.push((to, frame))?;
    }
    Ok(())
}

/// Tells the children that a wave is closed.
pub fn send_dones<T: PrefixTree>(
    context: &NodeContext<'_>,
    s: u8,
    w: u8,
    sends: &mut Vec<(u32, Frame)>,
) -> Result<(), AllocError>
    requires context { IsNodeContext context.now }
    requires wave { HasWave context.now.plan.now s w }
    ensures { OnOk result (SendsAt context.now (dones_at context.now s w) sends.old.items sends.new.items) }
{
    for child in context.kin.children() {
        send_done::<T>(context.plan, *child, s, w, sends)?;
    }
    Ok(())
}

/// Asks a node to take this one as a child.
pub fn send_attach<T: PrefixTree>(
    plan: &Plan,
    to: u32,
    sends: &mut Vec<(u32, Frame)>,
) -> Result<(), AllocError>
    ensures { OnOk result (Sends plan.now (to_parent (Some to) Attach) sends.old.items sends.new.items) }
{
    let frame = attach_frame::<T>(*sends.allocator(), plan)?;
    sends.push((to, frame))?;
    Ok(())
}
