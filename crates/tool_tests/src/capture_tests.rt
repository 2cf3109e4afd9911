//! The frames of runs, and captures that are printed or refused.
use crate::calls::{Called, call, call_into};
use overlay_event::Event;
use packet_frame::FrameReason;
use stat_desk::{MemDesk, MemSink};
use stat_tool::Status;
use std::alloc::Global;
use std::process::Abort;
use std::sync::Wait;
use std::thread::Threads;
use test_jobs::desks::{desk_of, lines_of, put};
use test_jobs::jobs::{
    ALL_SCR, DONT_WAIT_SCR, FOUR_SMP, INNER_TOP, LOST_JOURNAL, LOST_SCR, STORM_SMP, STORM_TOP,
    TWO_TOP,
};

fn digit(byte: u8) -> u8 {
    match byte {
        b'0'..=b'9' => byte - b'0',
        b'a'..=b'f' => byte - b'a' + 10,
        _ => 0,
    }
}

// The bytes of a text in hexadecimal, with blanks between them.
fn bytes_of(rt: &impl Abort, alloc: Global, text: &str) -> Vec<u8> {
    let mut bytes = Vec::new(alloc);
    let mut high = None;
    for byte in text.as_bytes() {
        if byte.is_ascii_whitespace() {
            continue;
        }
        match high {
            None => high = Some(digit(*byte) << 4),
            Some(first) => {
                bytes.push(first | digit(*byte)).expect(rt, "memory");
                high = None;
            }
        }
    }
    bytes
}

// The printing of a capture.
fn print<R: Threads + Wait + Sync + Abort>(rt: &R, alloc: Global, capture: &[u8]) -> Called {
    let mut desk = MemDesk::new(alloc);
    put(alloc, &mut desk, "f", capture).expect(rt, "memory");
    call(rt, alloc, &mut desk, ["frames", "--capture=f"].as_slice())
}

// A capture is printed as these lines, and nothing else is written.
fn assert_printed<R: Threads + Wait + Sync + Abort>(
    rt: &R,
    alloc: Global,
    capture: &[u8],
    lines: &str,
) {
    let called = print(rt, alloc, capture);
    assert!(rt; called.status == Status::Done);
    assert!(rt; called.report.bytes() == lines.as_bytes());
    assert!(rt; called.events.is_empty() && called.journal.bytes().is_empty());
}

// A capture is refused at this byte, and nothing is written.
fn assert_not_printed<R: Threads + Wait + Sync + Abort>(
    rt: &R,
    alloc: Global,
    capture: &[u8],
    at: u64,
    reason: FrameReason,
) {
    let called = print(rt, alloc, capture);
    assert!(rt;
        called.status == Status::BadFrames { at, reason },
        "at {at}"
    );
    assert!(rt; called.report.bytes().is_empty() && called.journal.bytes().is_empty());
}

// ---- captures

// What a job of two ranks sends, in both versions, and the lines of these frames.
const OLD_FRAMES: &str =
    "01010000 00000001 0000000000000002 0002 01 0004 6d61696e 00000000 02 0002 696f 00000001 0000000000000002
01010000 00000001 0000000000000001 0001 01 0004 6d61696e 00000001 0000000000000001 01020000 01020000";

const FRAMES: &str =
    "02010000 00000001 00000001 00000001 0002 01 0004 6d61696e 00000000 02 0002 696f 00000001 0000000000000001
02010000 00000001 00000000 00000000 0001 01 0004 6d61696e 00000001 0000000000000001 02020000 02020000";

const FRAME_LINES: &str = "0 up stream 0 wave 0 covered 1:[1] rows 2
  1:[1] - main
    1:[1] 1:[1] io
46 up stream 0 wave 0 covered 1:[0] rows 1
  1:[0] 1:[0] main
83 done stream 0 wave 0
87 done stream 0 wave 0
end 4 frames
";

const PRINTED: [(&str, &str); 7] = [
    ("", "end 0 frames\n"),
    (
        "010100000000000100000000000000010000",
        "0 up stream 0 wave 0 covered 1:[0] rows 0\nend 1 frames\n",
    ),
    (OLD_FRAMES, FRAME_LINES),
    (FRAMES, FRAME_LINES),
    (
        "0103 0204 0104 0203 0202070f",
        "0 attach\n2 down\n4 down\n6 attach\n8 done stream 7 wave 15\nend 5 frames\n",
    ),
    (
        "02010000 00000004 0000000000000000 0000000200000002 0000000400000004 0000000600000006 0001 01000161 00000001 000000000000000a",
        "0 up stream 0 wave 0 covered 4:[0,2,4,6] rows 1\n  2:[2,6] 2:[2,6] a\nend 1 frames\n",
    ),
    (
        "0204 02010102 00000001 0000000000000001 0000",
        "0 down\n2 up stream 1 wave 2 covered 2:[0-1] rows 0\nend 2 frames\n",
    ),
];

#[test]
fn prints_captures(rt: HostRuntime) {
    let alloc = rt.alloc();
    for (capture, lines) in PRINTED.as_slice() {
        let bytes = bytes_of(&rt, alloc, capture);
        assert_printed(&rt, alloc, bytes.as_slice(), lines);
    }
}

// Ten frames of 2,058 bytes each, of 256 words of 64 ranks and no rows, and their lines.
fn wide_capture(rt: &impl Abort, alloc: Global) -> (Vec<u8>, String) {
    let (mut capture, mut lines) = (Vec::new(alloc), String::new(alloc));
    for i in 0..10u32 {
        capture
            .extend_from_slice(&[1, 1, 0, 0, 0, 0, 1, 0])
            .expect(rt, "memory");
        for _ in 0..2_048 {
            capture.push(0xff).expect(rt, "memory");
        }
        capture.extend_from_slice(&[0, 0]).expect(rt, "memory");
        let line = format!(in alloc;
            "{} up stream 0 wave 0 covered 16384:[0-16383] rows 0\n",
            2_058 * i
        )
        .expect(rt, "memory");
        lines.push_str(line.as_str()).expect(rt, "memory");
    }
    lines.push_str("end 10 frames\n").expect(rt, "memory");
    (capture, lines)
}

#[test]
fn prints_captures_of_20580_bytes(rt: HostRuntime) {
    let alloc = rt.alloc();
    let (capture, lines) = wide_capture(&rt, alloc);
    assert_printed(&rt, alloc, capture.as_slice(), lines.as_str());
}

const REFUSED: [(&str, u64, FrameReason); 29] = [
    ("0101000000000001000000000000000100", 16, FrameReason::Short),
    (
        "01010000000000020000000000000001 00000000000000000000",
        16,
        FrameReason::NotCanonical,
    ),
    ("0109", 1, FrameReason::BadKind),
    ("03", 0, FrameReason::BadKind),
    ("01", 1, FrameReason::Short),
    ("01030105", 3, FrameReason::BadKind),
    ("010108", 2, FrameReason::OverLimit),
    ("01010010", 3, FrameReason::OverLimit),
    ("010100000100", 4, FrameReason::OverLimit),
    ("0101000000000000", 6, FrameReason::BadLength),
    ("0101000000010000", 6, FrameReason::NotCanonical),
    (
        "01010000000000020000000000000000",
        8,
        FrameReason::NotCanonical,
    ),
    (
        "010100000000000100000000000000010801",
        16,
        FrameReason::OverLimit,
    ),
    (
        "010100000000000100000000000000010001 02",
        18,
        FrameReason::NotCanonical,
    ),
    (
        "010100000000000100000000000000010001 81",
        18,
        FrameReason::OverLimit,
    ),
    (
        "010100000000000100000000000000010001 010000",
        19,
        FrameReason::BadLength,
    ),
    (
        "010100000000000100000000000000010001 0100016100000000",
        24,
        FrameReason::NotCanonical,
    ),
    (
        "010100000000000100000000000000010001 01000161000000010000000000000002",
        26,
        FrameReason::NotCanonical,
    ),
    (
        "010100000000000100000000000000010002 01000162000000010000000000000001 01000161",
        37,
        FrameReason::NotCanonical,
    ),
    (
        "02010000 00000004 0000000000000000 0000000200000002 0000000400000004 0000000600000006 0001 01000161 00000001 0000000000000010",
        50,
        FrameReason::NotCanonical,
    ),
    (
        "02010000 00000002 0000000000000000 00000001",
        16,
        FrameReason::NotCanonical,
    ),
    (
        "02010000 00000001 00000005 00000004",
        12,
        FrameReason::NotCanonical,
    ),
    ("02010000 00000001 00100000", 8, FrameReason::OverLimit),
    ("02010000 00000000", 4, FrameReason::BadLength),
    ("02010000 00080001", 4, FrameReason::OverLimit),
    // behind whole frames
    ("0203 0204 02020000 0205", 9, FrameReason::BadKind),
    ("0203 0204 02020000 02", 9, FrameReason::Short),
    ("0203 0204 02020000 0202", 10, FrameReason::Short),
    ("0203 0204 02020000 020208", 10, FrameReason::OverLimit),
];

#[test]
fn refuses_captures(rt: HostRuntime) {
    let alloc = rt.alloc();
    for (capture, at, reason) in REFUSED.as_slice() {
        let bytes = bytes_of(&rt, alloc, capture);
        assert_not_printed(&rt, alloc, bytes.as_slice(), *at, *reason);
    }
}

// ---- captures of more than one piece

// Done frames, more than three pieces of 4,096 bytes of them, behind two bytes: none begins or ends with a piece.
fn long_capture(rt: &impl Abort, alloc: Global) -> Vec<u8> {
    let mut bytes = bytes_of(rt, alloc, "0203");
    for _ in 0..4_000 {
        bytes.extend_from_slice(&[2, 2, 0, 0]).expect(rt, "memory");
    }
    bytes
}

fn long_lines(rt: &impl Abort, alloc: Global) -> String {
    let mut lines = String::from_str(alloc, "0 attach\n").expect(rt, "memory");
    for i in 0..4_000u32 {
        let line = format!(in alloc; "{} done stream 0 wave 0\n", 4 * i + 2).expect(rt, "memory");
        lines.push_str(line.as_str()).expect(rt, "memory");
    }
    lines.push_str("end 4001 frames\n").expect(rt, "memory");
    lines
}

#[test]
fn prints_captures_of_several_pieces(rt: HostRuntime) {
    let alloc = rt.alloc();
    let mut desk = MemDesk::new(alloc);
    put(alloc, &mut desk, "f", long_capture(&rt, alloc).as_slice()).expect(&rt, "memory");
    let report = MemSink::new(alloc, 4_096, 200_000).expect(&rt, "memory");
    let journal = MemSink::new(alloc, 16, 16).expect(&rt, "memory");
    let words = ["frames", "--capture", "f"];
    let called = call_into(&rt, alloc, &mut desk, words.as_slice(), report, journal);
    assert!(rt; called.status == Status::Done);
    assert!(rt; called.report.bytes() == long_lines(&rt, alloc).as_bytes());
}

#[test]
fn refuses_captures_of_several_pieces(rt: HostRuntime) {
    let alloc = rt.alloc();
    let mut capture = long_capture(&rt, alloc);
    capture.extend_from_slice(&[2, 2, 0]).expect(&rt, "memory");
    assert_not_printed(&rt, alloc, capture.as_slice(), 16_005, FrameReason::Short);
}

// ---- the frames of runs

const TWO_SMP: &str = "daemon a:0 0\ndaemon b:0 1\nstack 0 0 main\nstack 0 1 main;io\n";

#[test]
fn a_simulation_writes_its_frames(rt: HostRuntime) {
    let alloc = rt.alloc();
    let mut desk = desk_of(alloc, TWO_TOP, TWO_SMP, DONT_WAIT_SCR).expect(&rt, "memory");
    let words = [
        "sim",
        "--topology=t",
        "--samples=s",
        "--script=c",
        "--report=frames",
        "--seed=0",
    ];
    let called = call(&rt, alloc, &mut desk, words.as_slice());
    assert!(rt; called.status == Status::Done);
    assert!(rt; called.report.bytes() == bytes_of(&rt, alloc, FRAMES).as_slice());
    assert!(rt; called.events.len() == 6);
    assert_printed(&rt, alloc, called.report.bytes(), FRAME_LINES);
}

const RUN_WORDS: [&str; 7] = [
    "run",
    "--topology=t",
    "--samples=s",
    "--script=c",
    "--report",
    "frames",
    "--workers=3",
];

const REPLAY_WORDS: [&str; 7] = [
    "replay",
    "--topology=t",
    "--samples=s",
    "--script=c",
    "--report",
    "frames",
    "--journal-in=j",
];

// Whether a replay writes the frames that its run has written, and they can be printed.
fn replays_frames<R: Threads + Wait + Sync + Abort>(
    rt: &R,
    alloc: Global,
    desk: &mut MemDesk,
) -> bool {
    let run = call(rt, alloc, desk, RUN_WORDS.as_slice());
    put(alloc, desk, "j", run.journal.bytes()).expect(rt, "memory");
    let replay = call(rt, alloc, desk, REPLAY_WORDS.as_slice());
    let printed = print(rt, alloc, run.report.bytes());
    replay.status == Status::Done
        && printed.status == Status::Done
        && run.report.bytes() == replay.report.bytes()
}

// What a lost node has sent is in the log, where it is received.
#[test]
fn a_replay_writes_the_frames_of_its_run(rt: HostRuntime) {
    let alloc = rt.alloc();
    for set in [0, 1, 21, 63] {
        let faults = lines_of(alloc, set, 2, 1).expect(&rt, "memory");
        let script = format!(in alloc; "{ALL_SCR}{faults}").expect(&rt, "memory");
        let mut desk = desk_of(alloc, STORM_TOP, STORM_SMP, script.as_str()).expect(&rt, "memory");
        assert!(rt; replays_frames(&rt, alloc, &mut desk), "at {set}");
    }
}

// An inner node is lost after it has sent: what it sent is received after the loss, and before the notice of it.
const LOST_LINES: &str = "0 up stream 0 wave 0 covered 2:[0-1] rows 3
  2:[0-1] - main
    1:[0] 1:[0] MPI_Barrier
    1:[1] 1:[1] compute
77 up stream 0 wave 0 covered 2:[2-3] rows 2
  2:[2-3] - main
    2:[2-3] 2:[2-3] MPI_Barrier
132 down
134 down
136 attach
138 up stream 0 wave 0 covered 2:[0-1] rows 3
  2:[0-1] - main
    1:[0] 1:[0] MPI_Barrier
    1:[1] 1:[1] compute
215 up stream 0 wave 0 covered 4:[0-3] rows 3
  4:[0-3] - main
    3:[0,2-3] 3:[0,2-3] MPI_Barrier
    1:[1] 1:[1] compute
292 down
294 attach
296 up stream 0 wave 0 covered 2:[2-3] rows 2
  2:[2-3] - main
    2:[2-3] 2:[2-3] MPI_Barrier
351 done stream 0 wave 0
355 done stream 0 wave 0
end 12 frames
";

#[test]
fn a_lost_node_has_sent_frames(rt: HostRuntime) {
    let alloc = rt.alloc();
    let mut desk = desk_of(alloc, INNER_TOP, FOUR_SMP, LOST_SCR).expect(&rt, "memory");
    put(alloc, &mut desk, "j", LOST_JOURNAL.as_bytes()).expect(&rt, "memory");
    let called = call(&rt, alloc, &mut desk, REPLAY_WORDS.as_slice());
    assert!(rt; called.status == Status::Done);
    assert_printed(&rt, alloc, called.report.bytes(), LOST_LINES);
}

// A journal that ends early has the frames that it receives.
#[test]
fn a_journal_that_ends_early_has_its_frames(rt: HostRuntime) {
    let alloc = rt.alloc();
    let mut desk = desk_of(alloc, TWO_TOP, TWO_SMP, DONT_WAIT_SCR).expect(&rt, "memory");
    put(
        alloc,
        &mut desk,
        "j",
        b"sample b:0 0 0\nrecv fe:0 b:0\n".as_slice(),
    )
    .expect(&rt, "memory");
    let called = call(&rt, alloc, &mut desk, REPLAY_WORDS.as_slice());
    let next = Event::Sample {
        node: 1,
        stream: 0,
        wave: 0,
    };
    assert!(rt; called.status == Status::Unfinished(next));
    let frames = bytes_of(&rt, alloc, FRAMES);
    assert!(rt; called.report.bytes().len() == 46usize);
    assert!(rt; frames.as_slice().starts_with(called.report.bytes()));
}
