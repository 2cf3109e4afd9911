//! Whole calls over a desk and a sink in memory, with worked jobs, and one over the real files.
use crate::calls::{
    Called, assert_job, assert_refused, assert_report, call, call_into, call_over, report_of,
    run_on, script_of,
};
use crate::limited_tree::LimitedTree;
use overlay_event::{Event, OpenGate};
use packet_frame::FrameReason;
use prefix_tree::OwnedTree;
use stat_desk::{FileDesk, FileSink, MemDesk, MemSink, StdSink};
use stat_tool::{FileRole, Status, Target, WordFault, stat};
use stat_words::Opt;
use std::alloc::Global;
use std::fs;
use std::process::Abort;
use std::sync::Wait;
use std::thread::Threads;
use test_jobs::desks::{
    REPLAY_WORDS, SIM_WORDS, WORDS, desk_of, desk_of_bytes, put, recv, sample, words_of,
};
use test_jobs::jobs::{
    ALL_SCR, DONT_WAIT_SCR, FOUR_SMP, INNER_TOP, ONE_TOP, SOLVER_SMP, TWO_INNER_TOP, TWO_TOP,
    WORKED,
};
use text_lines::{Quantity, Reason};

// A text of each file, and its first fault: its line and its reason. The other files are good.
const BAD_TOPOLOGY: [(&[u8], u64, Reason); 9] = [
    (b"fe:0 => a:01 ;", 1, Reason::BadToken),
    (b"fe:0 => a:0 ;\nfe:0 => b:0 ;", 2, Reason::SecondLine),
    (b"fe:0 a:0 ;", 1, Reason::NoArrow),
    (b"fe:0 => ;", 1, Reason::NoChild),
    (b"fe:0 => a:0 b:0 ;\nx:0 => a:0 ;", 2, Reason::SecondParent),
    (b"fe:0 => a:0", 1, Reason::NoSemicolon),
    (b"", 0, Reason::NoRoot),
    (b"fe:0 => a:0 ;\ngz:0 => b:0 ;", 2, Reason::TwoRoots),
    (
        b"fe:0 => a:0 ;\nx:0 => y:0 ;\ny:0 => x:0 ;",
        2,
        Reason::Unreached,
    ),
];

const BAD_SAMPLES: [(&[u8], u64, Reason); 9] = [
    (b"daemon a:0 0\nstack 0 0 \xff", 2, Reason::NotUtf8),
    (b"# ranks\n\ndaemon a:0", 3, Reason::BadDirective),
    (b"daemon fe:0 0", 1, Reason::NotADaemon),
    (b"daemon a:0 1-", 1, Reason::BadRanks),
    (b"daemon a:0 0-2\ndaemon b:0 2-3", 2, Reason::PlacedTwice),
    (b"stack 65536 0 main", 1, Reason::BadTime),
    (b"stack 0 0 main\ndaemon a:0 0", 1, Reason::Unplaced),
    (b"daemon a:0 0\nstack 0 0 main;;io", 2, Reason::BadPath),
    (b"daemon a:0 0-1", 0, Reason::DaemonWithoutRank),
];

const BAD_SCRIPT: [(&[u8], u64, Reason); 8] = [
    (
        b"stream 0 wait-for-all waves 1 samples 1 on all a:0",
        1,
        Reason::BadDirective,
    ),
    (
        b"stream 0 wait-for-all waves 0 samples 1 on all",
        1,
        Reason::BadNumber,
    ),
    (
        b"stream 1 dont-wait waves 1 samples 1 on all\nstream 1 dont-wait waves 1 samples 1 on all",
        2,
        Reason::SecondStream,
    ),
    (
        b"stream 0 wait-for-all waves 1 samples 1 on a:0 fe:0",
        1,
        Reason::NotADaemon,
    ),
    (b"lose c:0 after 0 keep 0", 1, Reason::UnknownNode),
    (
        b"stream 0 wait-for-all waves 1 samples 1 on all\nlose fe:0 after 0 keep 0",
        2,
        Reason::LosesFront,
    ),
    (
        b"lose a:0 after 0 keep 0\nlose a:0 after 1 keep 0",
        2,
        Reason::SecondLoss,
    ),
    (b"# no stream", 0, Reason::NoStream),
];

// Lines that pass a limit: of samples, and of a script.
const LONG_SAMPLES: [(&[u8], u64, Quantity, u64); 2] = [
    (b"daemon a:0 1048576", 1, Quantity::Ranks, 1_048_576),
    (
        b"daemon a:0 0\nstack 0 1048576 main",
        2,
        Quantity::Ranks,
        1_048_576,
    ),
];

const LONG_SCRIPTS: [(&[u8], u64, Quantity, u64); 2] = [
    (
        b"stream 8 wait-for-all waves 1 samples 1 on all",
        1,
        Quantity::Streams,
        8,
    ),
    (
        b"stream 0 wait-for-all waves 17 samples 1 on all",
        1,
        Quantity::Waves,
        16,
    ),
];

// Scripts of the small job that are run.
const GOOD_SCRIPTS: [&str; 7] = [
    "stream 0 wait-for-all waves 1 samples 64 on all\n",
    "stream 0 wait-for-all waves 1 samples 1 on b:0 a:0\n",
    "# all\r\n\r\nstream 00 wait-for-all waves 01 samples 1 on all",
    "stream 0 time-out 1 waves 1 samples 1 on all\n",
    "stream 0 time-out 3 waves 2 samples 1 on a:0\n",
    "stream 0 dont-wait waves 16 samples 1 on all\n",
    "stream 0 wait-for-all waves 1 samples 1 on all\nstream 1 time-out 2 waves 2 samples 1 on b:0\n",
];

fn bad(file: FileRole, line: u64, reason: Reason) -> Status {
    Status::BadInput { file, line, reason }
}

// A call over the tree that won't merge many ranks.
fn call_limited<R: Threads + Wait + Sync + Abort>(
    rt: &R,
    alloc: Global,
    desk: &mut MemDesk,
    texts: &[&str],
) -> Called {
    let report = MemSink::new(alloc, 16, 20_000).expect(rt, "memory");
    let journal = MemSink::new(alloc, 16, 20_000).expect(rt, "memory");
    call_over::<R, LimitedTree>(rt, alloc, desk, texts, report, journal)
}

// In a run, a simulation and a replay of the run's journal, the front end merges the parts of two inner nodes, of 32
// ranks each. A program that merged the daemons' samples at the end would never merge as many at once.
#[test]
fn merges_the_parts_of_inner_nodes(rt: HostRuntime) {
    let alloc = rt.alloc();
    let mut desk = desk_of(alloc, TWO_INNER_TOP, SOLVER_SMP, ALL_SCR).expect(&rt, "memory");
    let run = call(&rt, alloc, &mut desk, WORDS.as_slice());
    put(alloc, &mut desk, "j", run.journal.bytes()).expect(&rt, "memory");
    for texts in [
        WORDS.as_slice(),
        SIM_WORDS.as_slice(),
        REPLAY_WORDS.as_slice(),
    ] {
        let called = call_limited(&rt, alloc, &mut desk, texts);
        assert!(rt; called.status == Status::OutOfMemory);
        assert!(rt; called.report.bytes().is_empty() && called.journal.bytes().is_empty());
    }
}

#[test]
fn writes_the_reports_of_worked_jobs(rt: HostRuntime) {
    let alloc = rt.alloc();
    for job in WORKED.as_slice() {
        let files = [job.topology, job.samples, job.script];
        assert_job(&rt, alloc, files, WORDS.as_slice(), job.report);
    }
}

// The status of a run of these files, and whether nothing is written.
fn ends<R: Threads + Wait + Sync + Abort>(
    rt: &R,
    alloc: Global,
    topology: &[u8],
    samples: &[u8],
    script: &[u8],
) -> (Status, bool) {
    let mut desk = desk_of_bytes(alloc, topology, samples, script).expect(rt, "memory");
    let (status, out) = run_on(rt, alloc, &mut desk);
    (status, out.bytes().is_empty())
}

// The status of a run of the small job with another text of one of its files, and whether nothing is written.
fn ends_with<R: Threads + Wait + Sync + Abort>(
    rt: &R,
    alloc: Global,
    file: FileRole,
    text: &[u8],
) -> (Status, bool) {
    let (topology, samples, script) = (TWO_TOP.as_bytes(), FOUR_SMP.as_bytes(), ALL_SCR.as_bytes());
    match file {
        FileRole::Topology => ends(rt, alloc, text, samples, script),
        FileRole::Samples => ends(rt, alloc, topology, text, script),
        FileRole::Script | FileRole::Journal | FileRole::Capture | FileRole::Values => {
            ends(rt, alloc, topology, samples, text)
        }
    }
}

#[test]
fn names_the_first_fault_of_each_file(rt: HostRuntime) {
    for (file, table) in [
        (FileRole::Topology, BAD_TOPOLOGY.as_slice()),
        (FileRole::Samples, BAD_SAMPLES.as_slice()),
        (FileRole::Script, BAD_SCRIPT.as_slice()),
    ] {
        for (text, line, reason) in table {
            let status = Status::BadInput {
                file,
                line: *line,
                reason: *reason,
            };
            let end = ends_with(&rt, rt.alloc(), file, text);
            assert!(rt; end == (status, true));
        }
    }
}

#[test]
fn names_the_first_limit_that_is_passed(rt: HostRuntime) {
    for (file, table) in [
        (FileRole::Samples, LONG_SAMPLES.as_slice()),
        (FileRole::Script, LONG_SCRIPTS.as_slice()),
    ] {
        for (text, line, what, limit) in table {
            let status = Status::OverLimit {
                file,
                line: *line,
                what: *what,
                limit: *limit,
            };
            let end = ends_with(&rt, rt.alloc(), file, text);
            assert!(rt; end == (status, true));
        }
    }
}

#[test]
fn reads_the_files_in_order(rt: HostRuntime) {
    let alloc = rt.alloc();
    let good = TWO_TOP.as_bytes();
    let first = ends(&rt, alloc, b"", b"stack", b"lose").0;
    assert!(rt; first == bad(FileRole::Topology, 0, Reason::NoRoot));
    let second = ends(&rt, alloc, good, b"stack", b"lose").0;
    assert!(rt; second == bad(FileRole::Samples, 1, Reason::BadDirective));
}

#[test]
fn runs_good_scripts(rt: HostRuntime) {
    let alloc = rt.alloc();
    for script in GOOD_SCRIPTS.as_slice() {
        let end = ends_with(&rt, alloc, FileRole::Script, script.as_bytes());
        assert!(rt; end == (Status::Done, false));
    }
}

#[test]
fn reports_each_wave_of_each_stream(rt: HostRuntime) {
    let alloc = rt.alloc();
    for (streams, waves) in [(1, 16), (8, 1), (8, 16)] {
        let script = script_of(&rt, alloc, streams, waves);
        let files = [ONE_TOP, "daemon a:0 0\n", script.as_str()];
        let report = report_of(&rt, alloc, streams, waves, "1:[0]");
        assert_job(&rt, alloc, files, WORDS.as_slice(), &report);
    }
}

// The events of a run of the small job by this topology and script.
fn events_of<R: Threads + Wait + Sync + Abort>(
    rt: &R,
    alloc: Global,
    topology: &str,
    script: &str,
) -> Vec<Event> {
    let mut desk = desk_of(alloc, topology, FOUR_SMP, script).expect(rt, "memory");
    let called = call(rt, alloc, &mut desk, WORDS.as_slice());
    let mut events = Vec::new(alloc);
    for i in 0..called.events.len() {
        events.push(called.events.at(i)).expect(rt, "memory");
    }
    events
}

#[test]
fn gives_the_events_back(rt: HostRuntime) {
    let alloc = rt.alloc();
    let events = events_of(&rt, alloc, INNER_TOP, ALL_SCR);
    let expected = [
        sample(2),
        recv(1, 2),
        sample(3),
        recv(1, 3),
        recv(0, 1),
        recv(1, 0),
        recv(2, 1),
        recv(3, 1),
    ];
    assert!(rt; events.as_slice() == expected.as_slice());
    let events = events_of(&rt, alloc, TWO_TOP, DONT_WAIT_SCR);
    let expected = [
        sample(1),
        recv(0, 1),
        sample(2),
        recv(0, 2),
        recv(1, 0),
        recv(2, 0),
    ];
    assert!(rt; events.as_slice() == expected.as_slice());
}

#[test]
fn prints_the_number_of_any_stream(rt: HostRuntime) {
    let alloc = rt.alloc();
    let script = "stream 7 wait-for-all waves 1 samples 1 on all\n";
    let mut desk = desk_of(alloc, TWO_TOP, FOUR_SMP, script).expect(&rt, "memory");
    let (status, out) = run_on(&rt, alloc, &mut desk);
    assert!(rt; status == Status::Done);
    assert!(rt;
        out.bytes()
            .starts_with(b"stream 7 wave 0 release 1 final\ncov".as_slice())
    );
}

// Samples of a rank that has this many paths of one frame at each of this many times, no path twice.
fn one_frame_paths(rt: &impl Abort, alloc: Global, times: u32, paths: u32) -> String {
    let mut samples = String::from_str(alloc, "daemon a:0 0\n").expect(rt, "memory");
    for time in 0..times {
        for i in 0..paths {
            let line = format!(in alloc; "stack {time} 0 f{i}@{time}\n").expect(rt, "memory");
            samples.push_str(line.as_str()).expect(rt, "memory");
        }
    }
    samples
}

// A run on a desk, with room for a long report.
fn call_with_room<R: Threads + Wait + Sync + Abort>(
    rt: &R,
    alloc: Global,
    desk: &mut MemDesk,
) -> Called {
    let report = MemSink::new(alloc, 1_000, 1_000_000).expect(rt, "memory");
    let journal = MemSink::new(alloc, 16, 1_000).expect(rt, "memory");
    call_into(rt, alloc, desk, WORDS.as_slice(), report, journal)
}

#[test]
fn counts_the_prefixes_of_a_wave(rt: HostRuntime) {
    let alloc = rt.alloc();
    let over = Status::OverLimit {
        file: FileRole::Samples,
        line: 0,
        what: Quantity::Prefixes,
        limit: 2_048,
    };
    for (times, paths, status) in [
        (1, 2_048, Status::Done),
        (1, 2_049, over),
        (2, 2_048, Status::Done),
    ] {
        let samples = one_frame_paths(&rt, alloc, times, paths);
        let mut desk = desk_of(alloc, ONE_TOP, samples.as_str(), ALL_SCR).expect(&rt, "memory");
        let called = call_with_room(&rt, alloc, &mut desk);
        assert!(rt; called.status == status);
        assert!(rt; called.report.bytes().is_empty() == (status != Status::Done));
    }
}

// Streams whose three times are one wave, by line and by function.
const THREE_TIMES: [(&str, &str); 2] = [
    (
        "line",
        "stream 0 wait-for-all waves 1 samples 3 by line on all\n",
    ),
    (
        "function",
        "stream 0 wait-for-all waves 1 samples 3 by function on all\n",
    ),
];

#[test]
fn counts_the_prefixes_that_a_stream_sees(rt: HostRuntime) {
    let alloc = rt.alloc();
    let samples = one_frame_paths(&rt, alloc, 3, 1_000);
    for (grain, script) in THREE_TIMES.as_slice() {
        let mut desk = desk_of(alloc, ONE_TOP, samples.as_str(), script).expect(&rt, "memory");
        let called = call_with_room(&rt, alloc, &mut desk);
        assert!(rt; (called.status == Status::Done) == (*grain == "function"));
    }
}

// A front end with 511 daemons, and 2,048 ranks on each, all in one frame.
fn wide_job(rt: &impl Abort, alloc: Global) -> MemDesk {
    let mut topology = String::from_str(alloc, "fe:0 =>").expect(rt, "memory");
    let mut samples = String::new(alloc);
    for i in 0..511u32 {
        topology
            .push_str(format!(in alloc; " d:{i}").expect(rt, "memory").as_str())
            .expect(rt, "memory");
        let line = format!(in alloc; "daemon d:{i} {}-{}\n", 2_048 * i, 2_048 * i + 2_047).expect(
            rt, "memory",
        );
        samples.push_str(line.as_str()).expect(rt, "memory");
    }
    topology.push_str(" ;\n").expect(rt, "memory");
    samples
        .push_str("stack 0 0-1046527 main\n")
        .expect(rt, "memory");
    desk_of(alloc, topology.as_str(), samples.as_str(), ALL_SCR).expect(rt, "memory")
}

const WIDE_REPORT: &str = "stream 0 wave 0 release 1 final
covered 1046528:[0-1046527]
tree
1046528:[0-1046527] - /
  1046528:[0-1046527] 1046528:[0-1046527] main
classes
class 1046528:[0-1046527] paths 1
  main
end
";

#[test]
fn runs_a_million_ranks(rt: HostRuntime) {
    let alloc = rt.alloc();
    for mode in ["run", "sim", "direct"] {
        let mut desk = wide_job(&rt, alloc);
        let words = [mode, "--topology=t", "--samples=s", "--script=c"];
        assert_report(&rt, alloc, &mut desk, words.as_slice(), WIDE_REPORT);
    }
}

// The status of a run whose topology is this text, filled up with blanks to this length.
fn status_of_length<R: Threads + Wait + Sync + Abort>(
    rt: &R,
    alloc: Global,
    text: &str,
    length: usize,
) -> Status {
    let mut topology = text.as_bytes().to_vec(alloc).expect(rt, "memory");
    topology.resize(length, b' ').expect(rt, "memory");
    let mut desk = MemDesk::new(alloc);
    desk.put(String::from_str(alloc, "t").expect(rt, "memory"), topology)
        .expect(rt, "memory");
    put(alloc, &mut desk, "s", FOUR_SMP.as_bytes()).expect(rt, "memory");
    put(alloc, &mut desk, "c", ALL_SCR.as_bytes()).expect(rt, "memory");
    run_on(rt, alloc, &mut desk).0
}

#[test]
fn takes_files_of_33554432_bytes_and_no_longer_ones(rt: HostRuntime) {
    let alloc = rt.alloc();
    assert!(rt; status_of_length(&rt, alloc, TWO_TOP, 33_554_432) == Status::Done);
    let over = Status::OverLimit {
        file: FileRole::Topology,
        line: 0,
        what: Quantity::Bytes,
        limit: 33_554_432,
    };
    assert!(rt; status_of_length(&rt, alloc, TWO_TOP, 33_554_433) == over);
}

// Words with which nothing is read or written, and their faults.
const OTHER_WORDS: [(&[&str], WordFault); 10] = [
    (&[], WordFault::NoMode),
    (&["trace"], WordFault::UnknownMode),
    (&["run", "--topology", "t"], WordFault::Options),
    (&["gen", "--size", "257"], WordFault::Value(Opt::Size)),
    (
        &[
            "run",
            "--topology=t",
            "--samples=s",
            "--script=c",
            "--workers",
            "0",
        ],
        WordFault::Value(Opt::Workers),
    ),
    (
        &[
            "direct",
            "--topology=t",
            "--samples=s",
            "--script=c",
            "--workers=0",
        ],
        WordFault::Value(Opt::Workers),
    ),
    (
        &[
            "direct",
            "--workers=33",
            "--topology=t",
            "--samples=s",
            "--script=c",
        ],
        WordFault::Value(Opt::Workers),
    ),
    (
        &["direct", "--script=c", "--samples=s", "--topology=-t"],
        WordFault::Value(Opt::Topology),
    ),
    (
        &[
            "direct",
            "--script=c",
            "--samples=s",
            "--topology=t",
            "--report=frames",
        ],
        WordFault::Value(Opt::Report),
    ),
    (&["frames"], WordFault::Options),
];

#[test]
fn refuses_other_words(rt: HostRuntime) {
    let alloc = rt.alloc();
    let mut desk = desk_of(alloc, TWO_TOP, FOUR_SMP, ALL_SCR).expect(&rt, "memory");
    for (texts, fault) in OTHER_WORDS.as_slice() {
        assert_refused(&rt, alloc, &mut desk, texts, Status::BadWords(*fault));
    }
}

const TEXTS: [(Status, &str, u8); 12] = [
    (
        Status::BadWords(WordFault::Options),
        "bad words: options",
        2,
    ),
    (
        Status::DeskFault(FileRole::Topology),
        "cannot read topology",
        3,
    ),
    (
        Status::BadInput {
            file: FileRole::Topology,
            line: 2,
            reason: Reason::SecondParent,
        },
        "topology line 2: SecondParent",
        4,
    ),
    (
        Status::OverLimit {
            file: FileRole::Samples,
            line: 0,
            what: Quantity::Prefixes,
            limit: 2_048,
        },
        "samples line 0: Prefixes over 2048",
        5,
    ),
    (Status::SinkFault(Target::Report), "cannot write report", 6),
    (
        Status::SinkFault(Target::Journal),
        "cannot write journal",
        6,
    ),
    (Status::OutOfMemory, "out of memory", 7),
    (Status::BadJournal(12), "journal event 12 refused", 8),
    (
        Status::Unfinished(Event::Recv { node: 1, from: 0 }),
        "journal ends before recv 1 0",
        9,
    ),
    (
        Status::Unfinished(Event::Sample {
            node: 1,
            stream: 0,
            wave: 2,
        }),
        "journal ends before sample 1 0 2",
        9,
    ),
    (
        Status::BadFrames {
            at: 16,
            reason: FrameReason::NotCanonical,
        },
        "capture at 16: NotCanonical",
        10,
    ),
    (
        Status::DeskFault(FileRole::Capture),
        "cannot read capture",
        3,
    ),
];

#[test]
fn prints_the_texts_of_the_statuses(rt: HostRuntime) {
    let alloc = rt.alloc();
    for (status, text, number) in TEXTS.as_slice() {
        let printed = format!(in alloc; "{status}").expect(&rt, "memory");
        assert!(rt; printed.as_str() == *text);
        assert!(rt; status.number() == *number);
    }
}

#[test]
fn uses_real_files_and_standard_output(rt: HostRuntime) -> anyhow::Result<()> {
    let alloc = rt.alloc();
    fs::write(&rt, "t", TWO_TOP)?;
    fs::write(&rt, "s", FOUR_SMP)?;
    fs::write(&rt, "c", ALL_SCR)?;
    let words = words_of(alloc, WORDS.as_slice())?;
    let mut desk = FileDesk::new(alloc, &rt);
    let mut out = StdSink::new(&rt);
    let mut journal = FileSink::new(&rt, String::from_str(alloc, "j")?);
    let outcome = stat::<_, OwnedTree, _, _, _, _>(
        &rt,
        alloc,
        words.as_slice(),
        &mut desk,
        &mut out,
        &mut journal,
        &OpenGate,
    );
    assert!(rt; outcome.status == Status::Done);
    let text = fs::read(&rt, "j")?;
    assert!(rt;
        text.as_slice()
            .starts_with(b"sample a:0 0 0\nrecv fe:0 a:0\n".as_slice())
    );
    Ok(())
}
