//! Devices that fail at each of their calls, and journals that may not be replayed.
use crate::calls::{Called, assert_refused, call_into};
use stat_desk::{MemDesk, MemSink};
use stat_tool::{FileRole, Status, Target};
use std::alloc::Global;
use std::process::Abort;
use std::sync::Wait;
use std::thread::Threads;
use test_jobs::desks::{REPLAY_WORDS, desk_of, put};
use test_jobs::jobs::{
    ALL_SCR, FOUR_REPORT, FOUR_SMP, INNER_TOP, LOST_JOURNAL, LOST_SCR, ONE_TOP, TWO_TOP,
};

// ---- the desk

const FILES: [(u64, FileRole); 4] = [
    (1, FileRole::Topology),
    (2, FileRole::Samples),
    (3, FileRole::Script),
    (4, FileRole::Journal),
];

fn failing_desk(rt: &impl Abort, alloc: Global, number: u64) -> MemDesk {
    let mut desk = desk_of(alloc, INNER_TOP, FOUR_SMP, LOST_SCR).expect(rt, "memory");
    put(alloc, &mut desk, "j", LOST_JOURNAL.as_bytes()).expect(rt, "memory");
    desk.fail_at(number).expect(rt, "memory");
    desk
}

// A replay whose desk fails at one of its reads stops there.
#[test]
fn the_desk_fails_at_each_file(rt: HostRuntime) {
    let alloc = rt.alloc();
    for (number, role) in FILES.as_slice() {
        let mut desk = failing_desk(&rt, alloc, *number);
        let status = Status::DeskFault(*role);
        assert_refused(&rt, alloc, &mut desk, REPLAY_WORDS.as_slice(), status);
    }
}

// ---- the sinks

// What the small job's journal is, with the events that seed 0 picks.
const FOUR_JOURNAL: &str = "sample b:0 0 0
recv fe:0 b:0
sample a:0 0 0
recv fe:0 a:0
recv b:0 fe:0
recv a:0 fe:0
";

// A sink that takes 16 bytes at a time, and that fails, or takes nothing, at a call.
fn sink(rt: &impl Abort, alloc: Global, number: u64, stalls: bool) -> MemSink {
    let mut sink = MemSink::new(alloc, 16, 1_000).expect(rt, "memory");
    if stalls {
        sink.stall_at(number).expect(rt, "memory");
    } else {
        sink.fail_at(number).expect(rt, "memory");
    }
    sink
}

// A simulation of the small job with these sinks.
fn simulate<R: Threads + Wait + Sync + Abort>(
    rt: &R,
    alloc: Global,
    report: MemSink,
    journal: MemSink,
) -> Called {
    let mut desk = desk_of(alloc, TWO_TOP, FOUR_SMP, ALL_SCR).expect(rt, "memory");
    let words = ["sim", "--topology=t", "--samples=s", "--script=c"];
    call_into(rt, alloc, &mut desk, words.as_slice(), report, journal)
}

// Whether a sink that failed at a call holds what the calls before it have taken.
fn holds_first(sink: &MemSink, number: usize, text: &str) -> bool {
    sink.bytes().len() == number.saturating_sub(1).saturating_mul(16)
        && text.as_bytes().starts_with(sink.bytes())
}

// A simulation whose report fails at this call ends there, with all events done and no journal.
fn assert_report_fails<R: Threads + Wait + Sync + Abort>(
    rt: &R,
    alloc: Global,
    number: usize,
    stalls: bool,
) {
    let report = sink(rt, alloc, number as u64, stalls);
    let journal = MemSink::new(alloc, 16, 1_000).expect(rt, "memory");
    let called = simulate(rt, alloc, report, journal);
    if number.saturating_sub(1).saturating_mul(16) < FOUR_REPORT.as_bytes().len() {
        assert!(rt; called.status == Status::SinkFault(Target::Report));
        assert!(rt; called.events.len() == 6 && called.journal.bytes().is_empty());
        assert!(rt; holds_first(&called.report, number, FOUR_REPORT));
    } else {
        assert!(rt; called.status == Status::Done);
    }
}

#[test]
fn the_report_fails_at_each_call(rt: HostRuntime) {
    for number in 1..40usize {
        assert_report_fails(&rt, rt.alloc(), number, false);
        assert_report_fails(&rt, rt.alloc(), number, true);
    }
}

// A simulation whose journal fails at this call ends there, with all events done and its report written.
fn assert_journal_fails<R: Threads + Wait + Sync + Abort>(
    rt: &R,
    alloc: Global,
    number: usize,
    stalls: bool,
) {
    let report = MemSink::new(alloc, 16, 1_000).expect(rt, "memory");
    let journal = sink(rt, alloc, number as u64, stalls);
    let called = simulate(rt, alloc, report, journal);
    assert!(rt; called.report.bytes() == FOUR_REPORT.as_bytes());
    if number.saturating_sub(1).saturating_mul(16) < FOUR_JOURNAL.as_bytes().len() {
        assert!(rt; called.status == Status::SinkFault(Target::Journal));
        assert!(rt; called.events.len() == 6);
        assert!(rt; holds_first(&called.journal, number, FOUR_JOURNAL));
    } else {
        assert!(rt; called.status == Status::Done);
        assert!(rt; called.journal.bytes() == FOUR_JOURNAL.as_bytes());
    }
}

#[test]
fn the_journal_fails_at_each_call(rt: HostRuntime) {
    for number in 1..12usize {
        assert_journal_fails(&rt, rt.alloc(), number, false);
        assert_journal_fails(&rt, rt.alloc(), number, true);
    }
}

// ---- journals

// Journals of a job of one daemon, and the first event that is refused.
const REFUSED: [(&str, u64); 6] = [
    ("sample a:0 0 0\nsample a:0 0 0\n", 1),
    ("recv a:0 fe:0\n", 0),
    (
        "sample a:0 0 0\nrecv fe:0 a:0\nrecv a:0 fe:0\ntick fe:0\n",
        3,
    ),
    ("sample a:0 0 0\n\nrecv fe:0 a:0\nrecv a:0 fe:0\n", 1),
    ("lose a:0\n", 0),
    ("sample a:0 00 0\n", 0),
];

#[test]
fn refuses_journals(rt: HostRuntime) {
    let alloc = rt.alloc();
    for (journal, number) in REFUSED.as_slice() {
        let mut desk = desk_of(alloc, ONE_TOP, "daemon a:0 0\n", ALL_SCR).expect(&rt, "memory");
        put(alloc, &mut desk, "j", journal.as_bytes()).expect(&rt, "memory");
        assert_refused(
            &rt,
            alloc,
            &mut desk,
            REPLAY_WORDS.as_slice(),
            Status::BadJournal(*number),
        );
    }
}
