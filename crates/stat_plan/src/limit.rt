//! The limit of distinct prefixes in each wave.
//!
//! Paths are gone through in their order. There, the prefixes of a path that some earlier path has, too, are those that
//! it shares with the path just before it. So the number of distinct prefixes is the sum of each path's frames, less
//! the frames that it shares with the path before.

ghost use Rattle.std.specs.Prelude.{◌≡◌, ◌<◌, ◌≤◌, ℕ, IfOk, IfErr, OnOk, length, map, nat_le, None, Some, find};
ghost use Rattle.std.specs.List.{flat_map};
ghost use Rattle.std.specs.Set.{distinct_count};
ghost use Rattle.rank_set.specs.Ranks.{Has};
ghost use Rattle.call_path.specs.Functions.{func};
ghost use Rattle.call_path.specs.Pairs.{prefixes};
ghost use Rattle.call_path.specs.Path.{is_path, shared_len};
ghost use Rattle.stat_plan.specs.Files.{DoFit, plan_in};
ghost use Rattle.stat_plan.specs.Limits.{RefusesAt, first_over, is_over, is_within_limit, stream_waves};
ghost use Rattle.overlay_setup.specs.NodeSets.{In};
ghost use Rattle.stat_plan.specs.PathOrder.{IsOrderOf, last_path, numbered, seen_paths};
ghost use Rattle.stat_plan.specs.Plans.{nodes, ranks_on, stream_of};
ghost use Rattle.stat_plan.specs.OwnLines.{HasRankOn};
ghost use Rattle.stat_plan.specs.Samples.{path_by};
ghost use Rattle.stat_plan.specs.Shown.{AreLinesParted, lines_view};
ghost use Rattle.stat_plan.specs.StackLines.{PathIndicesInRange};
ghost use Rattle.stat_plan.specs.Wanted.{samples_wanted};

use crate::files::Files;
use crate::path_order::in_order;
use crate::plan_error::PlanError;
use crate::samples::Lines;
use crate::wave_lines::{Wanted, ranks_seen};
use call_path::{CallPath, PREFIX_LIMIT};
use overlay_setup::{Grain, StreamDef, WaveTimes};
use rank_set::RankSet;
use std::alloc::{AllocError, Global};

// How many first frames a path shares with the last one before it.
fn shared_with(path: &CallPath, last: Option<&CallPath>) -> usize
    ensures value { result ≡ shared_len path.now (last_path last.entry) }
    ensures within { result ≤ length path.now }
{
    match last {
        Some(last) => path.common(last, 0),
        None => 0,
    }
}

// Whether those of some paths that are seen have at most 2,048 distinct prefixes. The paths' order is given.
fn is_within(paths: &[CallPath], order: &[usize], seen: &[bool]) -> bool
    requires paths { IsOrderOf paths.now order.now }
    requires seen { length seen.now ≡ length paths.now }
    ensures { result
        ≡ nat_le
        (distinct_count is_path (flat_map prefixes (seen_paths (numbered paths.now order.now) seen.now)))
        PREFIX_LIMIT }
{
    let mut count = 0;
    let mut last: Option<&CallPath> = None;
    for number in order {
        if seen[*number] {
            let path = &paths[*number];
            count += path.len() - shared_with(path, last);
            if count > PREFIX_LIMIT {
                return false;
            }
            last = Some(path);
        }
    }
    true
}

// Whether the wanted samples have at most 2,048 distinct prefixes, as a stream of some grain sees them. The order of
// the paths that it sees is given.
fn wave_is_within(
    alloc: Global,
    all: Lines<'_>,
    order: &[usize],
    grain: Grain,
    wanted: Wanted<'_>,
) -> Result<bool, AllocError>
    requires numbered { PathIndicesInRange all.paths.now all.lines.now.value }
    requires functions { all.functions.now ≡ map (map func) all.paths.now }
    requires order { IsOrderOf (map (path_by grain) all.paths.now) order.now }
    requires parted { AreLinesParted all }
    requires nodes { (d : ℕ) → In d wanted.daemons.now → d < length all.placed.now }
    requires ranks { (r : ℕ) → Has r wanted.ranks.now → HasRankOn all.placed.now wanted.daemons.now r }
    ensures { IfOk result (λ within. within
        ≡ is_within_limit (samples_wanted grain wanted.entry (lines_view all.entry))) }
{
    let paths = all.paths_by(grain);
    let sets = ranks_seen(alloc, all.parted, paths.len(), wanted)?;
    let mut seen = Vec::with_capacity(alloc, sets.len())?;
    for ranks in &sets {
        seen.push(!ranks.is_empty())?;
    }
    Ok(is_within(paths, order, &seen))
}

// The ranks of some daemons.
fn ranks_of(alloc: Global, files: Files<'_>, daemons: &[u32]) -> Result<RankSet, AllocError>
    requires files { DoFit files }
    requires daemons { (d : ℕ) → In d daemons.now → d < nodes (plan_in files) }
    ensures { IfOk result (λ ranks. ranks ≡ ranks_on (plan_in files.entry) daemons.now) }
{
    files.invariant();
    let placed = files.samples.placed();
    let mut ranks = RankSet::new(alloc);
    for d in daemons {
        ranks.union_into(&placed[*d as usize])?;
    }
    Ok(ranks)
}

// Tests the waves of a stream. The order of the paths as the stream sees them is given.
fn check_stream(
    alloc: Global,
    files: Files<'_>,
    all: Lines<'_>,
    order: &[usize],
    stream: &StreamDef,
) -> Result<(), PlanError>
    requires files { DoFit files }
    requires lines { lines_view all ≡ files.samples.now.lines }
    requires numbered { PathIndicesInRange all.paths.now all.lines.now.value }
    requires functions { all.functions.now ≡ map (map func) all.paths.now }
    requires order { IsOrderOf (map (path_by stream.now.grain) all.paths.now) order.now }
    requires parted { AreLinesParted all }
    requires placed { all.placed.now ≡ files.samples.now.placed }
    requires stream { stream_of (plan_in files) stream.now.number ≡ Some stream.now }
    requires daemons { (d : ℕ) → In d stream.now.daemons → d < nodes (plan_in files) }
    ensures ok { OnOk result (find (is_over (plan_in files.entry)) (stream_waves stream.now) ≡ None) }
    ensures err { IfErr result (RefusesAt (find (is_over (plan_in files.entry)) (stream_waves stream.now))) }
{
    files.invariant();
    let daemons = stream.daemons();
    let ranks = ranks_of(alloc, files, daemons)?;
    for wave in 0..stream.waves() {
        let times = WaveTimes {
            samples: stream.samples(),
            wave,
        };
        let wanted = Wanted {
            daemons,
            ranks: &ranks,
            times,
        };
        if !wave_is_within(alloc, all, order, stream.grain(), wanted)? {
            return Err(PlanError::TooManyPrefixes {
                stream: stream.number(),
                wave,
            });
        }
    }
    Ok(())
}

// Tests all waves, by stream and wave. The order of the functions of the paths is given.
fn check_streams(
    alloc: Global,
    files: Files<'_>,
    all: Lines<'_>,
    by_function: &[usize],
) -> Result<(), PlanError>
    requires files { DoFit files }
    requires lines { lines_view all ≡ files.samples.now.lines }
    requires numbered { PathIndicesInRange all.paths.now all.lines.now.value }
    requires functions { all.functions.now ≡ map (map func) all.paths.now }
    requires order { IsOrderOf all.paths.now all.order.now }
    requires by_function { IsOrderOf all.functions.now by_function.now }
    requires parted { AreLinesParted all }
    requires placed { all.placed.now ≡ files.samples.now.placed }
    ensures ok { OnOk result (first_over (plan_in files.entry) ≡ None) }
    ensures err { IfErr result (RefusesAt (first_over (plan_in files.entry))) }
{
    files.invariant();
    for stream in files.script.streams() {
        let order = match stream.grain() {
            Grain::Line => all.order,
            Grain::Function => by_function,
        };
        match check_stream(alloc, files, all, order, stream) {
            Ok(()) => {}
            Err(e) => return Err(e),
        }
    }
    Ok(())
}

/// Tests all waves, by stream and wave. Where all paths together are within the limit, so is each wave; that is nearly
/// always so, and no wave is looked at.
pub fn check_limit(alloc: Global, files: Files<'_>) -> Result<(), PlanError>
    requires { DoFit files }
    ensures ok { OnOk result (first_over (plan_in files.entry) ≡ None) }
    ensures err { IfErr result (RefusesAt (first_over (plan_in files.entry))) }
{
    let all = files.samples.lines();
    let every_path = vec![in alloc; true; all.paths.len()]?;
    if is_within(all.paths, all.order, &every_path) {
        return Ok(());
    }
    let by_function = in_order(alloc, all.functions)?;
    check_streams(alloc, files, all, &by_function)
}
