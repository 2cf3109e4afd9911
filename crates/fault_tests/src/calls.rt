//! Calls over a desk in memory, with sinks in memory.

use overlay_event::Journal;
use prefix_tree::OwnedTree;
use stat_desk::{MemDesk, MemSink};
use stat_tool::{Status, stat};
use std::alloc::Global;
use std::process::Abort;
use std::sync::Wait;
use std::thread::Threads;
use test_jobs::desks::{REPLAY_WORDS, WORDS, put, words_of};
use test_jobs::gates::BusyGate;

/// What a call leaves: its status and its events, and what it wrote to the sinks of the report and of the journal.
#[derive(Drop)]
pub struct Called {
    pub status: Status,
    pub events: Journal,
    pub report: MemSink,
    pub journal: MemSink,
}

// A call with these words, whose sinks take sixteen bytes at a time.
pub fn call<R: Threads + Wait + Sync + Abort>(
    rt: &R,
    alloc: Global,
    desk: &mut MemDesk,
    texts: &[&str],
) -> Called {
    let report = MemSink::new(alloc, 16, 20_000).expect(rt, "memory");
    let journal = MemSink::new(alloc, 16, 100_000).expect(rt, "memory");
    call_into(rt, alloc, desk, texts, report, journal)
}

// A call with these words and sinks.
pub fn call_into<R: Threads + Wait + Sync + Abort>(
    rt: &R,
    alloc: Global,
    desk: &mut MemDesk,
    texts: &[&str],
    report: MemSink,
    journal: MemSink,
) -> Called {
    let words = words_of(alloc, texts).expect(rt, "memory");
    let (mut report, mut journal) = (report, journal);
    let outcome = stat::<R, OwnedTree, _, _, _, _>(
        rt,
        alloc,
        words.as_slice(),
        desk,
        &mut report,
        &mut journal,
        &BusyGate,
    );
    Called {
        status: outcome.status,
        events: outcome.journal,
        report,
        journal,
    }
}

// A simulation with events that this seed picks.
pub fn simulate<R: Threads + Wait + Sync + Abort>(
    rt: &R,
    alloc: Global,
    desk: &mut MemDesk,
    seed: u32,
) -> Called {
    let option = format!(in alloc; "--seed={seed}").expect(rt, "memory");
    let words = [
        "sim",
        "--topology=t",
        "--samples=s",
        "--script=c",
        option.as_str(),
    ];
    call(rt, alloc, desk, words.as_slice())
}

// A call in this mode with so many workers.
pub fn call_with<R: Threads + Wait + Sync + Abort>(
    rt: &R,
    alloc: Global,
    desk: &mut MemDesk,
    mode: &str,
    workers: u32,
) -> Called {
    let option = format!(in alloc; "--workers={workers}").expect(rt, "memory");
    let words = [
        mode,
        "--topology=t",
        "--samples=s",
        "--script=c",
        option.as_str(),
    ];
    call(rt, alloc, desk, words.as_slice())
}

// A run on so many workers.
pub fn run_with<R: Threads + Wait + Sync + Abort>(
    rt: &R,
    alloc: Global,
    desk: &mut MemDesk,
    workers: u32,
) -> Called {
    call_with(rt, alloc, desk, "run", workers)
}

// Whether a call is done, and one thread that replays its journal writes the same report.
pub fn is_replayed<R: Threads + Wait + Sync + Abort>(
    rt: &R,
    alloc: Global,
    desk: &mut MemDesk,
    called: &Called,
) -> bool {
    put(alloc, desk, "j", called.journal.bytes()).expect(rt, "memory");
    let replay = call(rt, alloc, desk, REPLAY_WORDS.as_slice());
    let done = called.status == Status::Done && replay.status == Status::Done;
    done && called.report.bytes() == replay.report.bytes()
}

// The status of a run on a desk, and its report.
pub fn run_on<R: Threads + Wait + Sync + Abort>(
    rt: &R,
    alloc: Global,
    desk: &mut MemDesk,
) -> (Status, MemSink) {
    let called = call(rt, alloc, desk, WORDS.as_slice());
    (called.status, called.report)
}
