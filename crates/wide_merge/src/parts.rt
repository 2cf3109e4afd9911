//! All samples of a wave, by halves on threads.

ghost use Rattle.std.specs.Prelude.{◌≡◌, ◌≤◌, IfOk};
ghost use Rattle.std.specs.Thread.{IsSend, IsSync};
ghost use Rattle.stat_plan.specs.Plans.{stream_ranks};
ghost use Rattle.merge_filter.specs.Contributions.{HasWave, IsPartialMerge, coverage_of};
ghost use Rattle.wide_merge.specs.Parts.{IsPartOf, MayMerge};

use merge_filter::Contribution;
use overlay_event::{Event, Gate};
use prefix_tree::PrefixTree;
use stat_plan::Plan;
use std::alloc::{AllocError, Global};
use std::thread::{Threads, join};

/// A wave that is to be merged.
#[derive(Drop)]
pub struct WideMerge<'a, G: Gate> {
    /// Where the trees are made.
    pub alloc: Global,
    /// The plan that has the wave.
    pub plan: &'a Plan,
    /// Each daemon of the stream passes it once: after the part was made that has its samples, and before that part is
    /// merged with another.
    pub gate: &'a G,
    /// The number of the stream.
    pub stream: u8,
    /// The number of the wave.
    pub wave: u8,
}

// Passes the gate once for each of some daemons.
fn pass_gate<G: Gate>(merge: &WideMerge<'_, G>, some: &[u32]) {
    for d in some {
        merge.gate.pass(&Event::Sample {
            node: *d,
            stream: merge.stream,
            wave: merge.wave,
        });
    }
}

// The part of some daemons, which then pass the gate.
fn one_part<T: PrefixTree, G: Gate>(
    merge: &WideMerge<'_, G>,
    some: &[u32],
) -> Result<Contribution<T>, AllocError>
    requires { MayMerge merge.now.plan.now some.now merge.now.stream merge.now.wave }
    ensures { IfOk result (IsPartOf merge.now.plan.now some.now merge.now.stream merge.now.wave) }
{
    let part = Contribution::of_daemons(merge.alloc, merge.plan, some, merge.stream, merge.wave)?;
    pass_gate(merge, some);
    Ok(part)
}

// The part of some daemons, by so many threads: while there are several, both halves are made at once.
fn wide_part<R: Threads + Sync, T: PrefixTree, G: Gate>(
    rt: &R,
    merge: &WideMerge<'_, G>,
    some: &[u32],
    workers: u32,
) -> Result<Contribution<T>, AllocError>
    requires { MayMerge merge.now.plan.now some.now merge.now.stream merge.now.wave }
    ensures { IfOk result (IsPartOf merge.now.plan.now some.now merge.now.stream merge.now.wave) }
{
    if workers < 2 || some.len() < 2 {
        return one_part(merge, some);
    }
    let (front, back) = some.split_at(some.len() / 2);
    let half = workers / 2;
    let more = workers - half;
    let (all, rest) = join(
        rt,
        || -> Result<Contribution<T>, AllocError>
            requires { IsSync R.row × IsSync G.row × IsSend T.row
                × MayMerge merge.now.plan.now front.now merge.now.stream merge.now.wave }
            ensures { IfOk result
                (IsPartOf merge.entry.now.plan.now front.entry.now merge.entry.now.stream merge.entry.now.wave) }
        { wide_part(rt, merge, front, half) },
        || -> Result<Contribution<T>, AllocError>
            requires { IsSync R.row × IsSync G.row × IsSend T.row
                × MayMerge merge.now.plan.now back.now merge.now.stream merge.now.wave }
            ensures { IfOk result
                (IsPartOf merge.entry.now.plan.now back.entry.now merge.entry.now.stream merge.entry.now.wave) }
        { wide_part(rt, merge, back, more) },
    );
    let mut all = all?;
    let rest = rest?;
    all.absorb(merge.plan, &rest)?;
    Ok(all)
}

/// All samples of a wave, by so many threads: the same tree as that of `merge_filter::direct`.
pub fn wide_tree<R: Threads + Sync, T: PrefixTree, G: Gate>(
    rt: &R,
    merge: &WideMerge<'_, G>,
    workers: u32,
) -> Result<Contribution<T>, AllocError>
    requires wave { HasWave merge.now.plan.now merge.now.stream merge.now.wave }
    requires workers { (1 ≤ workers) × (workers ≤ 32) }
    ensures stream { IfOk result (λ c. c.stream ≡ merge.now.stream) }
    ensures wave { IfOk result (λ c. c.wave ≡ merge.now.wave) }
    ensures coverage { IfOk result (λ c. coverage_of c ≡ stream_ranks merge.now.plan.now merge.now.stream) }
    ensures partial_merge { IfOk result (IsPartialMerge merge.now.plan.now) }
{
    let some = merge.plan.known_stream(merge.stream).daemons();
    wide_part(rt, merge, some, workers)
}
