//! The lines of the plan of parts.

ghost use Rattle.std.specs.Prelude.{◌≡◌, ◌<◌, ◌++◌, List, [], IfOk, IfSome, OnOk, length, slice_index_or};
ghost use Rattle.std.specs.List.{AllByRecursion, flat_map};
ghost use Rattle.call_path.specs.Path.{Path};
ghost use Rattle.stat_plan.specs.Plans.{Plan, nodes};
ghost use Rattle.stat_plan.specs.StackLines.{PathIndicesInRange, lines_of};
ghost use Rattle.rank_sums.specs.PartTrees.{number_path};
ghost use Rattle.rank_sums.specs.PartPlans.{line_if, line_with, path_or_zero, paths_of, stream_lines};
ghost use Rattle.rank_sums.specs.Sums.{IsPartPlan};

use crate::fold::Fold;
use crate::parts::parts_of;
use call_path::{CallPath, PathBuilder};
use itoa::Buffer;
use overlay_setup::{StreamDef, WaveTimes};
use rank_set::RANK_LIMIT;
use stat_plan::{LineList, Plan};
use std::alloc::{AllocError, Global};
use value_text::Values;

// The path of a number: one frame, which is its decimal text.
fn number_path(alloc: Global, number: i64) -> Result<CallPath, AllocError>
    ensures { IfOk result (λ path. path ≡ number_path number) }
{
    let mut frames = PathBuilder::new(alloc);
    let mut buffer = Buffer::new();
    frames.push(buffer.format(number))?;
    Ok(frames.into_path())
}

// The path of a part; that of 0 where there is none.
fn path_or_zero(alloc: Global, part: Option<i64>) -> Result<CallPath, AllocError>
    ensures { IfOk result (λ path. path ≡ path_or_zero part) }
{
    match part {
        Some(number) => number_path(alloc, number),
        None => number_path(alloc, 0),
    }
}

// The path of each part.
fn paths_of(alloc: Global, parts: &[Option<i64>]) -> Result<Vec<CallPath>, AllocError>
    ensures { IfOk result (λ paths. paths.items ≡ paths_of parts.now) }
{
    let mut paths = Vec::with_capacity(alloc, parts.len())?;
    for part in parts {
        paths.push(path_or_zero(alloc, *part)?)?;
    }
    Ok(paths)
}

// Adds the line of daemon d's part, if it has one.
fn add_line(
    leader: Option<u32>,
    part: Option<i64>,
    d: u32,
    time: u32,
    lines: &mut LineList,
) -> Result<(), AllocError>
    requires { IfSome leader (λ r. r < RANK_LIMIT) }
    ensures lines { OnOk result ((paths : List Path) → slice_index_or paths d [] ≡ path_or_zero part
        → lines_of paths lines.new ≡ lines_of paths lines.old ++ line_if time leader part) }
    ensures numbered { OnOk result ((paths : List Path) → d < length paths
        → PathIndicesInRange paths lines.old → PathIndicesInRange paths lines.new) }
{
    let Some(leader) = leader else {
        return Ok(());
    };
    if part.is_none() {
        return Ok(());
    }
    lines.push_one(time, d, leader)?;
    Ok(())
}

// Adds the lines of some daemons.
fn add_lines(
    plan: &Plan,
    parts: &[Option<i64>],
    daemons: &[u32],
    time: u32,
    lines: &mut LineList,
) -> Result<(), AllocError>
    requires parts { length parts.now ≡ nodes plan.now }
    requires daemons { AllByRecursion (λ d. d < nodes plan.now) daemons.now }
    ensures lines { OnOk result (lines_of (paths_of parts.now) lines.new
        ≡ lines_of (paths_of parts.now) lines.old ++ flat_map (line_with plan.now parts.now time) daemons.now) }
    ensures numbered { OnOk result (PathIndicesInRange (paths_of parts.now) lines.old
        → PathIndicesInRange (paths_of parts.now) lines.new) }
{
    for d in daemons {
        add_line(plan.ranks(*d).first(), parts[*d as usize], *d, time, lines)?;
    }
    Ok(())
}

// Adds the lines of the waves of a stream, each at the first time of its wave.
fn add_waves(
    plan: &Plan,
    parts: &[Option<i64>],
    stream: &StreamDef,
    lines: &mut LineList,
) -> Result<(), AllocError>
    requires parts { length parts.now ≡ nodes plan.now }
    requires daemons { AllByRecursion (λ d. d < nodes plan.now) stream.now.daemons }
    ensures lines { OnOk result (lines_of (paths_of parts.now) lines.new
        ≡ lines_of (paths_of parts.now) lines.old ++ stream_lines plan.now parts.now stream.now) }
    ensures numbered { OnOk result (PathIndicesInRange (paths_of parts.now) lines.old
        → PathIndicesInRange (paths_of parts.now) lines.new) }
{
    let samples = stream.samples();
    for wave in 0..stream.waves() {
        let time = WaveTimes { samples, wave }.first();
        add_lines(plan, parts, stream.daemons(), time, lines)?;
    }
    Ok(())
}

// The lines of all waves of a plan.
fn lines_with(alloc: Global, plan: &Plan, parts: &[Option<i64>]) -> Result<LineList, AllocError>
    requires { length parts.now ≡ nodes plan.now }
    ensures lines { IfOk result (λ lines. lines_of (paths_of parts.now) lines
        ≡ flat_map (stream_lines plan.now parts.now) plan.now.streams) }
    ensures numbered { IfOk result (λ lines. PathIndicesInRange (paths_of parts.now) lines) }
{
    plan.invariant();
    let mut lines = LineList::new(alloc);
    for stream in plan.streams() {
        add_waves(plan, parts, stream, &mut lines)?;
    }
    Ok(lines)
}

/// The plan with the parts of its daemons in place of its samples: in each wave of a stream, the least rank of each
/// daemon whose ranks have a number was seen in the path whose only frame is the decimal text of the fold over them.
pub fn part_plan(alloc: Global, plan: Plan, values: &Values, fold: Fold) -> Result<Plan, AllocError>
    ensures { IfOk result (IsPartPlan plan values.now fold) }
{
    plan.invariant();
    values.invariant();
    let parts = parts_of(alloc, &plan, values, fold)?;
    let paths = paths_of(alloc, &parts)?;
    let lines = lines_with(alloc, &plan, &parts)?;
    plan.with_lines(alloc, paths, lines)
}
