//! Runs and direct merges on several workers.
use crate::calls::{Called, call_into, call_with, is_replayed, run_with};
use overlay_event::{Event, Gate};
use prefix_tree::OwnedTree;
use stat_desk::{MemDesk, MemSink};
use stat_tool::{Status, Target, stat};
use std::alloc::Global;
use std::process::Abort;
use std::sync::Wait;
use std::sync::atomic::{AtomicBool, AtomicU64, Ordering};
use std::thread::{Threads, yield_now};
use test_jobs::desks::{desk_of, lines_of, put, words_of};
use test_jobs::jobs::{
    ALL_SCR, FOUR_REPORT, FOUR_SMP, INNER_TOP, NO_B, ONE_TOP, SOLVER_REPORT, SOLVER_SMP, STORM_SMP,
    STORM_TOP, TWO_INNER_TOP, TWO_TOP,
};

// A job, and the report of it.
struct Job {
    topology: &'static str,
    samples: &'static str,
    script: &'static str,
    report: &'static str,
}

const FOUR: Job = Job {
    topology: TWO_TOP,
    samples: FOUR_SMP,
    script: ALL_SCR,
    report: FOUR_REPORT,
};

const SOLVER: Job = Job {
    topology: TWO_INNER_TOP,
    samples: SOLVER_SMP,
    script: ALL_SCR,
    report: SOLVER_REPORT,
};

const LOSING_SCR: &str =
    "stream 0 wait-for-all waves 1 samples 1 on all\nlose b:0 after 0 keep 0\n";

// Jobs whose report is the same in every run.
const JOBS: [Job; 4] = [
    FOUR,
    SOLVER,
    Job {
        topology: INNER_TOP,
        samples: FOUR_SMP,
        script: ALL_SCR,
        report: FOUR_REPORT,
    },
    Job {
        topology: TWO_TOP,
        samples: FOUR_SMP,
        script: LOSING_SCR,
        report: NO_B,
    },
];

// A call in this mode with so many workers writes a job's report.
fn assert_job<R: Threads + Wait + Sync + Abort>(
    rt: &R,
    alloc: Global,
    job: &Job,
    mode: &str,
    workers: u32,
) {
    let mut desk = desk_of(alloc, job.topology, job.samples, job.script).expect(rt, "memory");
    let called = call_with(rt, alloc, &mut desk, mode, workers);
    assert!(rt; called.status == Status::Done);
    assert!(rt; called.report.bytes() == job.report.as_bytes());
}

#[test]
fn any_number_of_workers_writes_the_report(rt: HostRuntime) {
    for job in JOBS.as_slice() {
        for workers in [1, 2, 8] {
            assert_job(&rt, rt.alloc(), job, "run", workers);
        }
    }
}

#[test]
fn each_number_of_workers_writes_the_report(rt: HostRuntime) {
    for workers in 1..33 {
        assert_job(&rt, rt.alloc(), &FOUR, "run", workers);
    }
}

// Jobs, and what a direct merge writes of them: all ranks, also those of a daemon that the script loses.
const MERGED_JOBS: [Job; 3] = [
    FOUR,
    SOLVER,
    Job {
        topology: TWO_TOP,
        samples: FOUR_SMP,
        script: LOSING_SCR,
        report: FOUR_REPORT,
    },
];

#[test]
fn any_number_of_workers_merges_directly(rt: HostRuntime) {
    for job in MERGED_JOBS.as_slice() {
        for workers in [1, 2, 8] {
            assert_job(&rt, rt.alloc(), job, "direct", workers);
        }
    }
}

// Two streams, one of two waves, whose samples differ.
const STREAMS_SMP: &str = "daemon d0:0 0-1
daemon d1:0 2-3
daemon d2:0 4-5
daemon d3:0 6-7
daemon d4:0 8-9
daemon d5:0 10-11
daemon d6:0 12-13
daemon d7:0 14-15
stack 0 0-15 main
stack 1 3,9 main;recv
stack 2 0-7,15 main;send
stack 3 8-14 main;send;poll
";

const STREAMS_SCR: &str = "stream 0 wait-for-all waves 2 samples 2 on all
stream 3 time-out 2 waves 1 samples 3 on d1:0 d6:0 d7:0
";

// Workers write what one writes, wave by wave.
#[test]
fn any_number_of_workers_merges_each_wave(rt: HostRuntime) {
    let alloc = rt.alloc();
    let mut desk = desk_of(alloc, STORM_TOP, STREAMS_SMP, STREAMS_SCR).expect(&rt, "memory");
    let alone = call_with(&rt, alloc, &mut desk, "direct", 1);
    assert!(rt; alone.status == Status::Done);
    for workers in [2, 3, 5, 8, 32] {
        let mut desk = desk_of(alloc, STORM_TOP, STREAMS_SMP, STREAMS_SCR).expect(&rt, "memory");
        let called = call_with(&rt, alloc, &mut desk, "direct", workers);
        assert!(rt; called.status == Status::Done);
        assert!(rt; called.report.bytes() == alone.report.bytes());
    }
}

// ---- the gate

// A gate that holds events until so many have come, or for so many turns.
#[derive(Drop)]
struct HoldingGate {
    // The events that are held, by their numbers: from the first one on, and before the second one.
    held: (u64, u64),
    // How many events have to come.
    until: u64,
    passes: AtomicU64,
    // The node of the first event that is held.
    node: AtomicU64,
    gave_up: AtomicBool,
}

fn gate_of(held: (u64, u64), until: u64) -> HoldingGate {
    HoldingGate {
        held,
        until,
        passes: AtomicU64::new(0),
        node: AtomicU64::new(0),
        gave_up: AtomicBool::new(false),
    }
}

impl Gate for HoldingGate {
    fn pass(&self, event: &Event) {
        let number = self.passes.fetch_add(1, Ordering::SeqCst);
        if number < self.held.0 {
            // meanwhile other workers look for an event, and find none
            for _ in 0..10_000 {
                yield_now();
            }
        }
        if number < self.held.0 || number >= self.held.1 {
            return;
        }
        if number == self.held.0 {
            self.node.store(u64::from(event.node()), Ordering::SeqCst);
        }
        for _ in 0..10_000_000 {
            if self.passes.load(Ordering::SeqCst) >= self.until {
                return;
            }
            yield_now();
        }
        self.gave_up.store(true, Ordering::SeqCst);
    }

    fn may_wait(&self) -> bool {
        true
    }
}

// A job, its workers, and which of its events are held until how many have come.
struct Holding {
    topology: &'static str,
    samples: &'static str,
    script: &'static str,
    workers: &'static str,
    held: (u64, u64),
    until: u64,
}

// All workers but one are held, and in the last job the one that goes on has found nothing to do before: of its first
// two events one is of the first wave and one of the second.
const HOLDING: [Holding; 4] = [
    Holding {
        topology: TWO_TOP,
        samples: FOUR_SMP,
        script: ALL_SCR,
        workers: "--workers=2",
        held: (0, 1),
        until: 3,
    },
    Holding {
        topology: TWO_INNER_TOP,
        samples: SOLVER_SMP,
        script: ALL_SCR,
        workers: "--workers=3",
        held: (0, 2),
        until: 4,
    },
    Holding {
        topology: TWO_INNER_TOP,
        samples: SOLVER_SMP,
        script: ALL_SCR,
        workers: "--workers=4",
        held: (0, 3),
        until: 5,
    },
    Holding {
        topology: "fe:0 => c:0 ;\nc:0 => a:0 ;\n",
        samples: "daemon a:0 0\n",
        script: "stream 0 wait-for-all waves 3 samples 1 on all\n",
        workers: "--workers=2",
        held: (1, 2),
        until: 4,
    },
];

// A call whose events pass a gate.
fn call_through<R: Threads + Wait + Sync + Abort>(
    rt: &R,
    alloc: Global,
    desk: &mut MemDesk,
    texts: &[&str],
    gate: &HoldingGate,
) -> Called {
    let words = words_of(alloc, texts).expect(rt, "memory");
    let mut report = MemSink::new(alloc, 16, 20_000).expect(rt, "memory");
    let mut journal = MemSink::new(alloc, 16, 20_000).expect(rt, "memory");
    let outcome = stat::<R, OwnedTree, _, _, _, _>(
        rt,
        alloc,
        words.as_slice(),
        desk,
        &mut report,
        &mut journal,
        gate,
    );
    Called {
        status: outcome.status,
        events: outcome.journal,
        report,
        journal,
    }
}

// Whether a job's run goes on while workers are held, and what is held isn't the next event of the journal.
fn goes_on<R: Threads + Wait + Sync + Abort>(rt: &R, alloc: Global, job: &Holding) -> bool {
    let mut desk = desk_of(alloc, job.topology, job.samples, job.script).expect(rt, "memory");
    let [mode, topology, samples, script] = RUN_WORDS;
    let texts = [mode, topology, samples, script, job.workers];
    let gate = gate_of(job.held, job.until);
    let called = call_through(rt, alloc, &mut desk, texts.as_slice(), &gate);
    if called.status != Status::Done || job.held.0 >= called.events.len() {
        return false;
    }
    let next = u64::from(called.events.at(job.held.0).node());
    !gate.gave_up.load(Ordering::SeqCst)
        && gate.passes.load(Ordering::SeqCst) == called.events.len()
        && gate.node.load(Ordering::SeqCst) != next
}

const RUN_WORDS: [&str; 4] = ["run", "--topology=t", "--samples=s", "--script=c"];

// While workers are held with an event each, another one does events: what is held isn't the next of the journal. A run
// on fewer threads would wait for itself.
#[test]
fn one_worker_goes_on_while_others_are_held(rt: HostRuntime) {
    for job in HOLDING.as_slice() {
        assert!(rt; goes_on(&rt, rt.alloc(), job));
    }
}

const MERGE_WORDS: [&str; 5] = [
    "direct",
    "--topology=t",
    "--samples=s",
    "--script=c",
    "--workers=2",
];

// The first part of a direct merge is held until the second one has come. One worker would wait for itself.
#[test]
fn two_workers_merge_at_once(rt: HostRuntime) {
    let alloc = rt.alloc();
    let mut desk = desk_of(alloc, TWO_TOP, FOUR_SMP, ALL_SCR).expect(&rt, "memory");
    let gate = gate_of((0, 1), 2);
    let called = call_through(&rt, alloc, &mut desk, MERGE_WORDS.as_slice(), &gate);
    assert!(rt; called.status == Status::Done);
    assert!(rt; called.report.bytes() == FOUR_REPORT.as_bytes());
    assert!(rt; !gate.gave_up.load(Ordering::SeqCst));
    assert!(rt; gate.passes.load(Ordering::SeqCst) == 2);
}

// The words of calls by one worker in which no event passes the gate.
const OTHER_MODES: [&[&str]; 6] = [
    &["sim", "--topology=t", "--samples=s", "--script=c"],
    &[
        "replay",
        "--topology=t",
        "--samples=s",
        "--script=c",
        "--journal-in=j",
    ],
    &["direct", "--topology=t", "--samples=s", "--script=c"],
    &[
        "direct",
        "--topology=t",
        "--samples=s",
        "--script=c",
        "--workers=1",
    ],
    &["gen", "--size=1"],
    &["frames", "--capture=f"],
];

#[test]
fn no_event_of_another_mode_passes_the_gate(rt: HostRuntime) {
    let alloc = rt.alloc();
    let mut desk = desk_of(alloc, ONE_TOP, "daemon a:0 0\n", ALL_SCR).expect(&rt, "memory");
    let journal = "sample a:0 0 0\nrecv fe:0 a:0\nrecv a:0 fe:0\n";
    put(alloc, &mut desk, "j", journal.as_bytes()).expect(&rt, "memory");
    put(alloc, &mut desk, "f", b"").expect(&rt, "memory");
    for texts in OTHER_MODES.as_slice() {
        let gate = gate_of((0, 0), 0);
        let called = call_through(&rt, alloc, &mut desk, texts, &gate);
        assert!(rt; called.status == Status::Done);
        assert!(rt; gate.passes.load(Ordering::SeqCst) == 0);
    }
}

// ---- journals

// Whether a run on so many workers ends, and one thread that replays its journal prints the same report.
fn runs_are_replayed<R: Threads + Wait + Sync + Abort>(
    rt: &R,
    alloc: Global,
    desk: &mut MemDesk,
    workers: u32,
) -> bool {
    let run = run_with(rt, alloc, desk, workers);
    is_replayed(rt, alloc, desk, &run)
}

#[test]
fn replays_what_eight_workers_have_done(rt: HostRuntime) {
    let alloc = rt.alloc();
    let mut desk = desk_of(alloc, TWO_INNER_TOP, SOLVER_SMP, ALL_SCR).expect(&rt, "memory");
    assert!(rt; runs_are_replayed(&rt, alloc, &mut desk, 8));
}

// The storm's job, which loses the inner nodes of a set.
fn storm(rt: &impl Abort, alloc: Global, set: u32) -> MemDesk {
    let faults = lines_of(alloc, set, set % 5, set % 3).expect(rt, "memory");
    let script = format!(in alloc; "{ALL_SCR}{faults}").expect(rt, "memory");
    desk_of(alloc, STORM_TOP, STORM_SMP, script.as_str()).expect(rt, "memory")
}

// 200 runs in a row, each with another set of losses than the one before, with few and with many workers.
#[test]
fn replays_two_hundred_storms(rt: HostRuntime) {
    let alloc = rt.alloc();
    for run in 0..50 {
        for workers in [2, 3, 8, 32] {
            let mut desk = storm(&rt, alloc, run);
            assert!(rt; runs_are_replayed(&rt, alloc, &mut desk, workers));
        }
    }
}

// ---- a journal that can't be written

#[test]
fn a_failing_journal_leaves_the_report(rt: HostRuntime) {
    let alloc = rt.alloc();
    let mut desk = desk_of(alloc, TWO_INNER_TOP, SOLVER_SMP, ALL_SCR).expect(&rt, "memory");
    let report = MemSink::new(alloc, 16, 20_000).expect(&rt, "memory");
    let mut journal = MemSink::new(alloc, 16, 20_000).expect(&rt, "memory");
    journal.fail_at(1).expect(&rt, "memory");
    let words = [
        "run",
        "--topology=t",
        "--samples=s",
        "--script=c",
        "--workers=8",
    ];
    let called = call_into(&rt, alloc, &mut desk, words.as_slice(), report, journal);
    assert!(rt; called.status == Status::SinkFault(Target::Journal));
    assert!(rt; called.report.bytes() == SOLVER_REPORT.as_bytes());
    assert!(rt; called.journal.bytes().is_empty());
}
