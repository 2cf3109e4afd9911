//! How many workers a job is worth: on a small one a thread costs more than it gains.

ghost use Rattle.std.specs.Prelude.{◌≤◌};

use overlay_event::Gate;
use overlay_setup::{StreamDef, WaveTimes};
use stat_plan::Plan;
use std::thread::{Threads, available_parallelism};

// What an event takes beside its samples: as much as so many lines of samples.
const EVENT: u64 = 10;

/// From which size on several workers were seen to run a plan faster than one. 256 daemons with some twenty paths each
/// in one wave come to 7,600, and gain; 511 daemons with one path each come to 5,600, and don't.
pub const LARGE_RUN: u64 = 7_000;

/// From which size on they were seen to merge it directly faster than one. 256 daemons with some fifty paths each in
/// sixteen waves come to 288,000, and gain; 16 daemons in 36 waves come to 8,000, and don't.
pub const LARGE_DIRECT: u64 = 50_000;

// What a plan has to do, counted in lines of samples. A node's events of a wave are taken to cost as much as those of
// the stream's middle daemon do in the first wave.
fn plan_size(plan: &Plan) -> u64 {
    let mut size: u64 = 0;
    for stream in plan.streams() {
        size = size.saturating_add(stream_size(plan, stream));
    }
    size
}

// What a stream has to do, counted in the same way.
fn stream_size(plan: &Plan, stream: &StreamDef) -> u64 {
    let daemons = stream.daemons();
    let lines = match daemons.get(daemons.len() / 2) {
        Some(daemon) => first_lines(plan, *daemon, stream.samples()),
        None => 0,
    };
    u64::from(plan.nodes())
        .saturating_mul(u64::from(stream.waves()))
        .saturating_mul(EVENT.saturating_add(lines))
}

// How many lines a daemon has in the first wave; 0 where there is no memory to see it.
fn first_lines(plan: &Plan, daemon: u32, samples: u8) -> u64 {
    if daemon >= plan.nodes() {
        return 0;
    }
    match plan.own_lines(daemon, WaveTimes { samples, wave: 0 }) {
        Ok(own) => own.lines().len() as u64,
        Err(_) => 0,
    }
}

/// How many workers a plan is worth, of those that it may have. At a gate that may wait these are all, since it may
/// hold one until others come. At any other it is one where the plan is smaller than `large`, by an estimate from its
/// nodes, its waves and one daemon's lines, and no more than the machine has processors.
pub fn workers_for<R: Threads, G: Gate>(
    rt: &R,
    plan: &Plan,
    workers: u32,
    gate: &G,
    large: u64,
) -> u32
    requires { 1 ≤ workers }
    ensures { (1 ≤ result) × (result ≤ workers) }
{
    if gate.may_wait() || workers == 1 {
        return workers;
    }
    if plan_size(plan) < large {
        return 1;
    }
    match available_parallelism(rt) {
        Ok(processors) => match u32::try_from(processors.get()) {
            Ok(count) => workers.min(count).max(1),
            Err(_) => workers,
        },
        Err(_) => workers,
    }
}
