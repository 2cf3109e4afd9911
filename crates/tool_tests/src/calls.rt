//! Calls over a desk in memory, with sinks in memory.

use overlay_event::Journal;
use prefix_tree::{OwnedTree, PrefixTree};
use stat_desk::{MemDesk, MemSink};
use stat_plan::Plan;
use stat_tool::{Status, stat};
use std::alloc::Global;
use std::process::Abort;
use std::sync::Wait;
use std::thread::Threads;
use test_jobs::desks::{WORDS, desk_of, words_of};
use test_jobs::gates::BusyGate;

/// What a call leaves: its status and its events, and what it wrote to the sinks of the report and of the journal.
#[derive(Drop)]
pub struct Called {
    pub status: Status,
    pub events: Journal,
    pub report: MemSink,
    pub journal: MemSink,
}

// A call with these words, whose sinks take sixteen bytes at a time.
pub fn call<R: Threads + Wait + Sync + Abort>(
    rt: &R,
    alloc: Global,
    desk: &mut MemDesk,
    texts: &[&str],
) -> Called {
    let report = MemSink::new(alloc, 16, 20_000).expect(rt, "memory");
    let journal = MemSink::new(alloc, 16, 100_000).expect(rt, "memory");
    call_into(rt, alloc, desk, texts, report, journal)
}

// A call with these words and sinks.
pub fn call_into<R: Threads + Wait + Sync + Abort>(
    rt: &R,
    alloc: Global,
    desk: &mut MemDesk,
    texts: &[&str],
    report: MemSink,
    journal: MemSink,
) -> Called {
    call_over::<R, OwnedTree>(rt, alloc, desk, texts, report, journal)
}

// A call with these words and sinks, over this tree.
pub fn call_over<R: Threads + Wait + Sync + Abort, T: PrefixTree>(
    rt: &R,
    alloc: Global,
    desk: &mut MemDesk,
    texts: &[&str],
    report: MemSink,
    journal: MemSink,
) -> Called {
    let words = words_of(alloc, texts).expect(rt, "memory");
    let (mut report, mut journal) = (report, journal);
    let outcome = stat::<R, T, _, _, _, _>(
        rt,
        alloc,
        words.as_slice(),
        desk,
        &mut report,
        &mut journal,
        &BusyGate,
    );
    Called {
        status: outcome.status,
        events: outcome.journal,
        report,
        journal,
    }
}

// A call is done, and writes this report.
pub fn assert_report<R: Threads + Wait + Sync + Abort>(
    rt: &R,
    alloc: Global,
    desk: &mut MemDesk,
    texts: &[&str],
    report: &str,
) {
    let called = call(rt, alloc, desk, texts);
    assert!(rt; called.status == Status::Done);
    assert!(rt; called.report.bytes() == report.as_bytes());
}

// A call on the three files of a job is done, and writes this report.
pub fn assert_job<R: Threads + Wait + Sync + Abort>(
    rt: &R,
    alloc: Global,
    files: [&str; 3],
    texts: &[&str],
    report: &str,
) {
    let [topology, samples, script] = files;
    let mut desk = desk_of(alloc, topology, samples, script).expect(rt, "memory");
    assert_report(rt, alloc, &mut desk, texts, report);
}

// A call is done, and writes this report and this journal.
pub fn assert_written<R: Threads + Wait + Sync + Abort>(
    rt: &R,
    alloc: Global,
    desk: &mut MemDesk,
    texts: &[&str],
    written: [&str; 2],
) {
    let [report, journal] = written;
    let called = call(rt, alloc, desk, texts);
    assert!(rt; called.status == Status::Done);
    assert!(rt; called.report.bytes() == report.as_bytes());
    assert!(rt; called.journal.bytes() == journal.as_bytes());
}

// A call ends with this status, and writes nothing.
pub fn assert_refused<R: Threads + Wait + Sync + Abort>(
    rt: &R,
    alloc: Global,
    desk: &mut MemDesk,
    texts: &[&str],
    status: Status,
) {
    let called = call(rt, alloc, desk, texts);
    assert!(rt; called.status == status);
    assert!(rt; called.report.bytes().is_empty() && called.journal.bytes().is_empty());
}

// The plan of the texts of a job.
pub fn plan_of(alloc: Global, topology: &str, samples: &str, script: &str) -> Option<Plan> {
    let Ok(topology) = topology_text::read(alloc, topology.as_bytes()) else {
        return None;
    };
    let Ok(samples) = sample_text::read(alloc, samples.as_bytes(), &topology) else {
        return None;
    };
    let Ok(script) = script_text::read(alloc, script.as_bytes(), &topology) else {
        return None;
    };
    Plan::build(alloc, topology, samples, script).ok()
}

// The status of a run on a desk, and its report.
pub fn run_on<R: Threads + Wait + Sync + Abort>(
    rt: &R,
    alloc: Global,
    desk: &mut MemDesk,
) -> (Status, MemSink) {
    let called = call(rt, alloc, desk, WORDS.as_slice());
    (called.status, called.report)
}

// A script of this many streams, of this many waves each.
pub fn script_of(rt: &impl Abort, alloc: Global, streams: u32, waves: u32) -> String {
    let mut script = String::new(alloc);
    for stream in 0..streams {
        let line = format!(in alloc;
            "stream {stream} wait-for-all waves {waves} samples 1 on all\n"
        ).expect(rt, "memory");
        script.push_str(line.as_str()).expect(rt, "memory");
    }
    script
}

// The report of this many streams, of this many waves each, of these ranks, which were never seen.
pub fn report_of(rt: &impl Abort, alloc: Global, streams: u32, waves: u32, ranks: &str) -> String {
    let mut report = String::new(alloc);
    for stream in 0..streams {
        for wave in 0..waves {
            let heading = format!(in alloc; "stream {stream} wave {wave} release 1 final\n").expect(
                rt, "memory",
            );
            report.push_str(heading.as_str()).expect(rt, "memory");
            let rest = format!(in alloc;
                "covered {ranks}\ntree\n{ranks} - /\nclasses\nclass {ranks} paths 0\n"
            ).expect(rt, "memory");
            report.push_str(rest.as_str()).expect(rt, "memory");
        }
    }
    report.push_str("end\n").expect(rt, "memory");
    report
}
