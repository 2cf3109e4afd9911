//! The direct release of each wave, by waves on threads.
ghost use Rattle.std.specs.Prelude.{◌≡◌, ◌≤◌, ◌++◌, IfOk, OnOk};
ghost use Rattle.std.specs.Thread.{IsSend, IsSync};
ghost use Rattle.stat_plan.specs.Limits.{stream_waves};
ghost use Rattle.stat_plan.specs.Plans.{stream_ranks, waves_of};
ghost use Rattle.overlay_core.specs.TreeReleases.{release_view, releases_view};
ghost use Rattle.merge_filter.specs.Contributions.{HasWave, IsPartialMerge, coverage_of};
ghost use Rattle.wide_merge.specs.Waves.{AreDirect, MayMergeWaves, direct_release, direct_releases};

use crate::parts::{WideMerge, wide_tree};
use merge_filter::{Contribution, direct};
use overlay_core::{Kind, Release};
use overlay_event::Gate;
use overlay_setup::StreamDef;
use prefix_tree::PrefixTree;
use stat_plan::Plan;
use std::alloc::{AllocError, Global};
use std::thread::{Threads, join};

/// Waves that are to be merged directly.
#[derive(Drop)]
pub struct WideDirect<'a, G: Gate> {
    /// Where their trees are made.
    pub alloc: Global,
    /// The plan of the waves.
    pub plan: &'a Plan,
    /// Where there is more than one worker, each daemon passes it once for each of its waves.
    pub gate: &'a G,
    /// How many threads merge at most: 1 to 32.
    pub workers: u32,
}

/// One final release for each wave of the plan, with all ranks of its stream: that of the direct merge. The waves are
/// cut in halves, and each half again, as long as there is a thread for each part. One thread merges a wave: parts by
/// daemons would each have most of the wave's paths, and were seen to cost more than they gain. Only where the gate may
/// wait, and there are more threads than waves, several merge one, since it may hold one part until another comes.
pub fn wide_direct<R: Threads + Sync, T: PrefixTree, G: Gate>(
    rt: &R,
    job: &WideDirect<'_, G>,
) -> Result<Vec<Release<T>>, AllocError>
    requires workers { (1 ≤ job.now.workers) × (job.now.workers ≤ 32) }
    ensures { IfOk result (λ releases. releases_view T.tree releases.items ≡ direct_releases job.now.plan.now) }
{
    let waves = all_waves(job.alloc, job.plan)?;
    wide_waves(rt, job, waves.as_slice(), job.workers)
}

// The waves of a plan: each by its stream's number and its own.
fn all_waves(alloc: Global, plan: &Plan) -> Result<Vec<(u8, u8)>, AllocError>
    ensures { IfOk result (λ waves. waves.items ≡ waves_of plan.now.streams) }
{
    let mut waves = Vec::new(alloc);
    for stream in plan.streams() {
        push_waves(stream, &mut waves)?;
    }
    Ok(waves)
}

// Adds the waves of a stream.
fn push_waves(stream: &StreamDef, waves: &mut Vec<(u8, u8)>) -> Result<(), AllocError>
    ensures { OnOk result (waves.new.items ≡ waves.old.items ++ stream_waves stream.now) }
{
    for wave in 0..stream.waves() {
        waves.push((stream.number(), wave))?;
    }
    Ok(())
}

// The direct releases of some waves, by so many threads.
fn wide_waves<R: Threads + Sync, T: PrefixTree, G: Gate>(
    rt: &R,
    job: &WideDirect<'_, G>,
    waves: &[(u8, u8)],
    workers: u32,
) -> Result<Vec<Release<T>>, AllocError>
    requires { MayMergeWaves job.now.plan.now waves.now workers }
    ensures { IfOk result (λ releases. AreDirect T.tree job.now.plan.now waves.now releases.items) }
{
    if workers < 2 || waves.len() < 2 {
        return each_wave(rt, job, waves, workers);
    }
    let (front, back) = waves.split_at(waves.len() / 2);
    let fewer = workers / 2;
    let more = workers - fewer;
    let (all, rest) = join(
        rt,
        || -> Result<Vec<Release<T>>, AllocError>
            requires { IsSync R.row × IsSync G.row × IsSend T.row × MayMergeWaves job.now.plan.now front.now fewer }
            ensures { IfOk result
                (λ all. AreDirect T.tree job.entry.now.plan.now front.entry.now all.items) }
        { wide_waves(rt, job, front, fewer) },
        || -> Result<Vec<Release<T>>, AllocError>
            requires { IsSync R.row × IsSync G.row × IsSend T.row × MayMergeWaves job.now.plan.now back.now more }
            ensures { IfOk result
                (λ all. AreDirect T.tree job.entry.now.plan.now back.entry.now all.items) }
        { wide_waves(rt, job, back, more) },
    );
    let mut all = all?;
    let mut rest = rest?;
    all.append(&mut rest)?;
    Ok(all)
}

// The direct releases of some waves, one after another, each by so many threads.
fn each_wave<R: Threads + Sync, T: PrefixTree, G: Gate>(
    rt: &R,
    job: &WideDirect<'_, G>,
    waves: &[(u8, u8)],
    workers: u32,
) -> Result<Vec<Release<T>>, AllocError>
    requires { MayMergeWaves job.now.plan.now waves.now workers }
    ensures { IfOk result (λ releases. AreDirect T.tree job.now.plan.now waves.now releases.items) }
{
    let mut releases = Vec::new(job.alloc);
    for wave in waves {
        releases.push(one_wave(rt, job, *wave, workers)?)?;
    }
    Ok(releases)
}

// The direct release of a wave.
fn one_wave<R: Threads + Sync, T: PrefixTree, G: Gate>(
    rt: &R,
    job: &WideDirect<'_, G>,
    wave: (u8, u8),
    workers: u32,
) -> Result<Release<T>, AllocError>
    requires workers { (1 ≤ workers) × (workers ≤ 32) }
    requires wave { HasWave job.now.plan.now wave.0 wave.1 }
    ensures { IfOk result (λ release. release_view T.tree release ≡ direct_release job.now.plan.now wave) }
{
    let (stream, number) = wave;
    let merged = merged_wave::<R, T, G>(rt, job, stream, number, workers)?;
    Ok(Release {
        stream,
        wave: number,
        number: 1,
        kind: Kind::Final,
        tree: merged.into_tree(),
        lost: Vec::new(job.alloc),
    })
}

// All samples of a wave.
fn merged_wave<R: Threads + Sync, T: PrefixTree, G: Gate>(
    rt: &R,
    job: &WideDirect<'_, G>,
    stream: u8,
    wave: u8,
    workers: u32,
) -> Result<Contribution<T>, AllocError>
    requires workers { (1 ≤ workers) × (workers ≤ 32) }
    requires wave { HasWave job.now.plan.now stream wave }
    ensures stream { IfOk result (λ c. c.stream ≡ stream) }
    ensures wave { IfOk result (λ c. c.wave ≡ wave) }
    ensures coverage { IfOk result (λ c. coverage_of c ≡ stream_ranks job.now.plan.now stream) }
    ensures partial_merge { IfOk result (IsPartialMerge job.now.plan.now) }
{
    if job.workers == 1 {
        return direct(job.alloc, job.plan, stream, wave);
    }
    let merge = WideMerge {
        alloc: job.alloc,
        plan: job.plan,
        gate: job.gate,
        stream,
        wave,
    };
    let number = if job.gate.may_wait() { workers } else { 1 };
    wide_tree::<R, T, G>(rt, &merge, number)
}
