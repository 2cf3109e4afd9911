//! What no clause says: texts as they are written, and that each call succeeds with ample memory.

use call_path::CallPath;
use overlay_setup::{Grain, Topology, WaveTimes};
use sample_text::{Feeder, read};
use stat_desk::Feed;
use stat_plan::{Samples, StackLine};
use std::alloc::{AllocError, Global};
use std::process::Abort;
use text_lines::{Quantity, Reason, TextError};

// A front end and two daemons.
fn job(rt: &impl Abort, alloc: Global) -> Topology {
    topology_text::read(alloc, "fe:0 => a:0 b:0 ;".as_bytes()).expect(rt, "a topology")
}

const ACCEPTED: [&str; 9] = [
    "daemon a:0 0-1\ndaemon b:0 2\nstack 0 0-2 main;a\n",
    "daemon a:0 0\r\ndaemon b:0 1\r\nstack 0 0 m\r",
    " \tdaemon\t a:0  0 \t\n\tdaemon b:0 1\t",
    "\n#daemon a:0 0\n \t \r\n# stack\ndaemon a:0 0\n\r\ndaemon b:0 1\n",
    "daemon a:0 0,0,0-1,1\ndaemon a:0 2\ndaemon b:0 3\ndaemon a:0 1048575\n",
    "daemon a:0 0\ndaemon b:0 1\nstack 65535 1 m\nstack 65535 1 m\nstack 65535 1 n",
    "daemon a:0 0\ndaemon b:0 1\nstack 0 0-1 a  ; b  ",
    "daemon a:0 00\ndaemon b:0 01\nstack 0 1 \t m n;# ;\u{e9}\u{a0}",
    "daemon a:0 0\ndaemon b:0 1\nstack 00000000000000000000000000000000000000000000000000000000000000000000000000000000000000000000000000000000000000000000000000000000000000000000000000000000000000000000000000000000000000000000000000000000000000000000000000000000000000000000000000000000000000000000000000000000000000000000000000000000000065535 1 m",
];

#[test]
fn accepts_samples(rt: HostRuntime) {
    let job = job(&rt, rt.alloc());
    for text in &ACCEPTED {
        assert!(rt; read(rt.alloc(), text.as_bytes(), &job).is_ok(), "{text:?}");
    }
}

// The text of some lines of samples: the last digit of the time, the ranks, and the number and the text of the path.
fn text_of_lines(
    rt: &impl Abort,
    alloc: Global,
    lines: &[StackLine],
    paths: &[CallPath],
) -> Vec<u8> {
    let mut out = Vec::new(alloc);
    for line in lines {
        push_line(line, paths, &mut out).expect(rt, "memory");
    }
    out
}

fn push_line(line: &StackLine, paths: &[CallPath], out: &mut Vec<u8>) -> Result<(), AllocError> {
    out.extend_from_slice(&[b'0' + (line.time % 10) as u8, b' '])?;
    line.ranks.write_text(out)?;
    out.extend_from_slice(&[b' ', b'0' + (line.path % 10) as u8, b' '])?;
    if let Some(path) = paths.get(line.path as usize) {
        path.write_text(out)?;
    }
    out.extend_from_slice(b"\n")
}

// The samples for both daemons, one after the other, in a wave that has the first ten sample times.
fn text_of(rt: &impl Abort, alloc: Global, samples: &Samples) -> Vec<u8> {
    let mut text = own_text(rt, alloc, samples, 1, wave(10, 0));
    let other = own_text(rt, alloc, samples, 2, wave(10, 0));
    text.extend_from_slice(&other).expect(rt, "memory");
    text
}

// `stack` lines in the usual form and in others, behind lines that place the ranks 0 and 1 on the one daemon and 2 on
// the other, and the samples that they give, by daemon.
const FORMS: [(&str, &str); 16] = [
    ("stack 7 0-1 main;a", "7 2:[0-1] 0 main;a\n"),
    ("stack  7 0-1 main;a", "7 2:[0-1] 0 main;a\n"),
    ("stack 7  0-1 main;a", "7 2:[0-1] 0 main;a\n"),
    ("stack 7 0-1  main;a", "7 2:[0-1] 0 main;a\n"),
    ("stack\t7 0-1 main;a", "7 2:[0-1] 0 main;a\n"),
    ("stack 7\t0-1 main;a", "7 2:[0-1] 0 main;a\n"),
    ("stack 7 0-1\tmain;a", "7 2:[0-1] 0 main;a\n"),
    (" stack 7 0-1 main;a", "7 2:[0-1] 0 main;a\n"),
    ("\tstack 7 0-1 main;a\r\n", "7 2:[0-1] 0 main;a\n"),
    ("stack 0007 0-1 main;a\r", "7 2:[0-1] 0 main;a\n"),
    ("stack 7 0-1 main;a  ", "7 2:[0-1] 0 main;a  \n"),
    ("stack 7 0-1 main a;b c", "7 2:[0-1] 0 main a;b c\n"),
    (
        "stack 7 0-1 \u{e9}\u{a0};\u{20ac}",
        "7 2:[0-1] 0 \u{e9}\u{a0};\u{20ac}\n",
    ),
    ("stack 7 0-1 stack 7 0-1 m", "7 2:[0-1] 0 stack 7 0-1 m\n"),
    (
        "stack 0 0 m\nstack 1 1 m\nstack 2 2 n\nstack 3 0 m\nstack 4 1 n\nstack 5 2 n\nstack 6 0 mm",
        "0 1:[0] 0 m\n1 1:[1] 0 m\n3 1:[0] 0 m\n6 1:[0] 2 mm\n4 1:[1] 1 n\n2 1:[2] 1 n\n5 1:[2] 1 n\n",
    ),
    (
        "stack 0 0 m \nstack 1 1 m\nstack 2 2  m\nstack 3 0 m ",
        "1 1:[1] 1 m\n0 1:[0] 0 m \n3 1:[0] 0 m \n2 1:[2] 1 m\n",
    ),
];

// The samples of lines behind those that place the ranks 0 to 2.
fn read_lines(rt: &impl Abort, alloc: Global, lines: &str, job: &Topology) -> Samples {
    let places = "daemon a:0 0-1\ndaemon b:0 2\n";
    let text = format!(in alloc; "{places}{lines}").expect(rt, "memory");
    read(alloc, text.as_bytes(), job).expect(rt, "samples")
}

#[test]
fn reads_lines_in_any_form(rt: HostRuntime) {
    let job = job(&rt, rt.alloc());
    for (lines, want) in &FORMS {
        let samples = read_lines(&rt, rt.alloc(), lines, &job);
        let text = text_of(&rt, rt.alloc(), &samples);
        assert!(rt; text.as_slice() == want.as_bytes(), "{lines:?}");
    }
}

// The samples for one node alone, in a wave of so many sample times.
fn own_text(
    rt: &impl Abort,
    alloc: Global,
    samples: &Samples,
    n: u32,
    times: WaveTimes,
) -> Vec<u8> {
    assert!(rt; (n as usize) < samples.placed().len());
    let own = samples.own_lines(n, times).expect(rt, "memory");
    text_of_lines(rt, alloc, own.lines(), own.paths_by(Grain::Line))
}

fn own_lines_in(rt: &impl Abort, alloc: Global, text: &str, n: u32, times: WaveTimes) -> Vec<u8> {
    let job = job(rt, alloc);
    let samples = read(alloc, text.as_bytes(), &job).expect(rt, "samples");
    own_text(rt, alloc, &samples, n, times)
}

// The times of a wave.
fn wave(samples: u8, wave: u8) -> WaveTimes {
    WaveTimes { samples, wave }
}

const TWO_PATHS_BY_TURNS: &str = "daemon a:0 0-2,6
daemon b:0 3-5
stack 0 0,3 main;b
stack 0 1,4 main;a
stack 0 2,5-6 main;b
stack 0 0-6 main;a
";

// A node, and its samples.
const OWN_OF_TWO_PATHS: [(u32, &str); 2] = [
    (1, "0 4:[0-2,6] 1 main;a\n0 3:[0,2,6] 0 main;b\n"),
    (2, "0 3:[3-5] 1 main;a\n0 2:[3,5] 0 main;b\n"),
];

#[test]
fn gives_each_node_one_line_of_a_path_whose_lines_come_by_turns(rt: HostRuntime) {
    for (node, want) in &OWN_OF_TWO_PATHS {
        let own = own_lines_in(&rt, rt.alloc(), TWO_PATHS_BY_TURNS, *node, wave(1, 0));
        assert!(rt; own.as_slice() == want.as_bytes());
    }
}

const TWO_TIMES_BY_TURNS: &str = "daemon a:0 0-2
daemon b:0 3
stack 7 0,3 m
stack 8 1,3 m
stack 7 2-3 m
stack 8 0 m
";

fn assert_times(rt: &impl Abort, alloc: Global, times: WaveTimes, want: &str) {
    let own = own_lines_in(rt, alloc, TWO_TIMES_BY_TURNS, 2, times);
    assert!(rt; own.as_slice() == want.as_bytes());
}

#[test]
fn unites_no_lines_of_two_times(rt: HostRuntime) {
    assert_times(&rt, rt.alloc(), wave(16, 0), "7 1:[3] 0 m\n8 1:[3] 0 m\n");
}

#[test]
fn cuts_a_line_for_its_own_wave_alone(rt: HostRuntime) {
    assert_times(&rt, rt.alloc(), wave(4, 1), "7 1:[3] 0 m\n");
    assert_times(&rt, rt.alloc(), wave(7, 0), "");
}

// A text, and the line and reason of its first fault.
const FAULTS: [(&str, u64, Reason); 68] = [
    ("", 0, Reason::DaemonWithoutRank),
    ("\r\n \t\n# daemon a:0 0", 0, Reason::DaemonWithoutRank),
    ("daemon a:0 0\n", 0, Reason::DaemonWithoutRank),
    ("daemon b:0 0\nstack 0 0 m", 0, Reason::DaemonWithoutRank),
    ("x", 1, Reason::BadDirective),
    ("#\n\n \nx", 4, Reason::BadDirective),
    ("x\ny", 1, Reason::BadDirective),
    ("\r\r\n", 1, Reason::BadDirective),
    (" # x", 1, Reason::BadDirective),
    ("daemons a:0 0", 1, Reason::BadDirective),
    ("Daemon a:0 0", 1, Reason::BadDirective),
    ("\u{feff}daemon a:0 0", 1, Reason::BadDirective),
    ("daemon\u{b}a:0 0", 1, Reason::BadDirective),
    ("daemon\u{c}a:0 0", 1, Reason::BadDirective),
    ("daemon\u{a0}a:0 0", 1, Reason::BadDirective),
    ("daemon", 1, Reason::BadDirective),
    ("daemon a:0", 1, Reason::BadDirective),
    ("daemon a:0 ", 1, Reason::BadDirective),
    ("daemon a:0 0 1", 1, Reason::BadDirective),
    ("daemon c:0 x 1", 1, Reason::BadDirective),
    ("stack", 1, Reason::BadDirective),
    ("stack 0", 1, Reason::BadDirective),
    ("stack 0 0", 1, Reason::BadDirective),
    ("stack x x \t \r", 1, Reason::BadDirective),
    ("stack ", 1, Reason::BadDirective),
    ("stack  ", 1, Reason::BadDirective),
    ("stack 0 ", 1, Reason::BadDirective),
    ("stack 0  ", 1, Reason::BadDirective),
    ("stack  0 0", 1, Reason::BadDirective),
    ("stack 0 0 ", 1, Reason::BadDirective),
    ("stackx", 1, Reason::BadDirective),
    ("stackx 0 0 m", 1, Reason::BadDirective),
    ("stac 0 0 m", 1, Reason::BadDirective),
    ("stack\u{a0}0 0 m", 1, Reason::BadDirective),
    (
        "daemon a:0 0\nstack 0 0 m\nstack 1 0",
        3,
        Reason::BadDirective,
    ),
    (
        "daemon a:0 0\nstack 0 0 m\nstack 0 1 m",
        3,
        Reason::Unplaced,
    ),
    ("daemon fe:0 0", 1, Reason::NotADaemon),
    ("daemon c:0 x", 1, Reason::NotADaemon),
    ("daemon a:00 0", 1, Reason::NotADaemon),
    ("daemon \u{e9} 0", 1, Reason::NotADaemon),
    ("daemon a:0 x", 1, Reason::BadRanks),
    ("daemon a:0 ,", 1, Reason::BadRanks),
    ("daemon a:0 0-", 1, Reason::BadRanks),
    ("daemon a:0 3-1", 1, Reason::BadRanks),
    ("daemon a:0 -1", 1, Reason::BadRanks),
    ("daemon a:0 0\r\r\n", 1, Reason::BadRanks),
    ("daemon a:0 0-2\ndaemon b:0 2-3", 2, Reason::PlacedTwice),
    ("daemon a:0 1\ndaemon a:0 1", 2, Reason::PlacedTwice),
    ("daemon a:0 0\ndaemon b:0 0\nx", 2, Reason::PlacedTwice),
    ("daemon a:0 64,0\ndaemon b:0 1-64", 2, Reason::PlacedTwice),
    ("stack 65536 x ;", 1, Reason::BadTime),
    ("stack -1 0 m", 1, Reason::BadTime),
    ("stack x 0 m", 1, Reason::BadTime),
    ("stack 4294967296 0 m", 1, Reason::BadTime),
    (
        "stack 999999999999999999999999999999999999999999999999999999999999999999999999999999999999999999999999999999999999999999999999999999999999999999999999999999999999999999999999999999999999999999999999999999999999999999999999999999999999999999999999999999999999999999999999999999999999999999999999999999999999 0 m",
        1,
        Reason::BadTime,
    ),
    ("stack 0\u{a0} 0 m", 1, Reason::BadTime),
    ("stack 0 x ;", 1, Reason::BadRanks),
    ("stack 0 2-1 m", 1, Reason::BadRanks),
    ("stack 65535 0 ;", 1, Reason::Unplaced),
    (
        "daemon a:0 0\nstack 0 0-1 m\ndaemon b:0 1",
        2,
        Reason::Unplaced,
    ),
    ("daemon a:0 0\nstack 0 64 m", 2, Reason::Unplaced),
    ("daemon a:0 0\nstack 0 0 ;", 2, Reason::BadPath),
    ("daemon a:0 0\nstack 0 0 m;;n", 2, Reason::BadPath),
    ("daemon a:0 0\nstack 0 0 m;", 2, Reason::BadPath),
    ("daemon a:0 0\nstack 0 0 m\tn", 2, Reason::BadPath),
    ("daemon a:0 0\nstack 0 0 m \t", 2, Reason::BadPath),
    ("daemon a:0 0\nstack 0 0 m\r\r\n", 2, Reason::BadPath),
    (
        "daemon a:0 0\nstack 0 0 m\nstack 0 0 ;\nx",
        3,
        Reason::BadPath,
    ),
];

fn is_refused(alloc: Global, text: &[u8], job: &Topology, want: TextError) -> bool {
    read(alloc, text, job).err() == Some(want)
}

#[test]
fn refuses_texts_at_the_first_fault(rt: HostRuntime) {
    let job = job(&rt, rt.alloc());
    for (text, line, reason) in &FAULTS {
        let want = TextError::Bad {
            line: *line,
            reason: *reason,
        };
        assert!(rt;
            is_refused(rt.alloc(), text.as_bytes(), &job, want),
            "{text:?}"
        );
    }
}

// A text with a rank past the last, and the line of it.
const TOO_MANY_RANKS: [(&str, u64); 4] = [
    ("daemon a:0 1048576", 1),
    (
        "daemon a:0 0-999999999999999999999999999999999999999999999999999999999999999999999999999999999999999999999999999999999999999999999999999999999999999999999999999999999999999999999999999999999999999999999999999999999999999999999999999999999999999999999999999999999999999999999999999999999999999999999999999999999999",
        1,
    ),
    ("\ndaemon a:0 1048576x", 2),
    ("daemon a:0 0\nstack 0 1048576 ;", 2),
];

#[test]
fn refuses_ranks_past_the_last(rt: HostRuntime) {
    let job = job(&rt, rt.alloc());
    for (text, line) in &TOO_MANY_RANKS {
        let want = TextError::Over {
            line: *line,
            what: Quantity::Ranks,
            limit: 1_048_576,
        };
        assert!(rt;
            is_refused(rt.alloc(), text.as_bytes(), &job, want),
            "{text:?}"
        );
    }
}

#[test]
fn takes_any_bytes_in_comments(rt: HostRuntime) {
    let job = job(&rt, rt.alloc());
    let text = b"#\xff\xfe\n# \xc3\r\ndaemon a:0 0\ndaemon b:0 1\nstack 0 0 m\n#\x80\nstack 0 1 m";
    assert!(rt; read(rt.alloc(), text, &job).is_ok());
}

// A text, and the line of its first bytes that are no UTF-8.
const NOT_UTF8: [(&[u8], u64); 5] = [
    (b"#\xff\nx\xff\n", 2),
    (b"\n #\xff", 2),
    (b"daemon a:0 0\nstack 0 0 \xc3;", 2),
    (b"daemon a:0 0\nstack 0 0 m\nstack 0 0 m\xff", 3),
    (b"daemon a:0 0\nstack 0 0 m\nstack 0 0\xff m", 3),
];

#[test]
fn refuses_other_bytes_elsewhere(rt: HostRuntime) {
    let job = job(&rt, rt.alloc());
    for (text, line) in &NOT_UTF8 {
        let want = TextError::Bad {
            line: *line,
            reason: Reason::NotUtf8,
        };
        assert!(rt; is_refused(rt.alloc(), text, &job, want), "line {line}");
    }
}

// Two lines that place ranks, and so many lines of samples of nine paths.
fn many_lines(rt: &impl Abort, alloc: Global, count: u32) -> Vec<u8> {
    let mut text = Vec::new(alloc);
    text.extend_from_slice(b"daemon a:0 0\ndaemon b:0 1\n")
        .expect(rt, "memory");
    for n in 0..count {
        text.extend_from_slice(b"stack 0 0-1 main;read;")
            .expect(rt, "memory");
        text.extend_from_slice(&[b'a' + (n % 9) as u8, b'\n'])
            .expect(rt, "memory");
    }
    text
}

// A line past the limit is refused as that, whatever else is wrong with it.
#[test]
fn reads_as_many_samples_as_may_be(rt: HostRuntime) {
    let job = job(&rt, rt.alloc());
    let mut text = many_lines(&rt, rt.alloc(), 262_144);
    assert!(rt; read(rt.alloc(), &text, &job).is_ok());
    text.extend_from_slice(b"stack x 0 m\n")
        .expect(&rt, "memory");
    let want = TextError::Over {
        line: 262_147,
        what: Quantity::Lines,
        limit: 262_144,
    };
    assert!(rt; is_refused(rt.alloc(), &text, &job, want));
}

// The samples of a text that comes in two pieces.
fn read_in_two(
    alloc: Global,
    first: &[u8],
    second: &[u8],
    job: &Topology,
) -> Result<Samples, TextError> {
    let mut feeder = Feeder::new(alloc, job)?;
    feeder.feed(first);
    feeder.feed(second);
    feeder.finish()
}

// Texts and their samples by daemon: lines that end in both ways, the last one with and without a line feed, and
// characters of two and of three bytes.
const WHOLE_OR_CUT: [(&str, &str); 3] = [
    (
        "daemon a:0 0\r\ndaemon b:0 1-2\r\n\r\nstack 7 0-2 m\r\nstack 8 1 m;n\r\n",
        "7 1:[0] 0 m\n7 2:[1-2] 0 m\n8 1:[1] 1 m;n\n",
    ),
    (
        "daemon a:0 0\ndaemon b:0 1\nstack 1 0 \u{e9};\u{20ac}\nstack 1 1 \u{e9};\u{20ac}",
        "1 1:[0] 0 \u{e9};\u{20ac}\n1 1:[1] 0 \u{e9};\u{20ac}\n",
    ),
    (
        "#\n\ndaemon a:0 0\ndaemon b:0 1\nstack 3 1 m \r",
        "3 1:[1] 0 m \n",
    ),
];

fn assert_cut(rt: &impl Abort, alloc: Global, parts: (&[u8], &[u8]), job: &Topology, want: &str) {
    let samples = read_in_two(alloc, parts.0, parts.1, job).expect(rt, "samples");
    let text = text_of(rt, alloc, &samples);
    assert!(rt; text.as_slice() == want.as_bytes(), "{want:?}");
}

#[test]
fn reads_a_text_wherever_it_is_cut(rt: HostRuntime) {
    let job = job(&rt, rt.alloc());
    for (text, want) in &WHOLE_OR_CUT {
        let bytes = text.as_bytes();
        for at in 0..bytes.len() {
            assert_cut(&rt, rt.alloc(), bytes.split_at(at), &job, want);
        }
    }
}

// Texts with an error, and others behind it; the line and the reason of the first.
const BAD_OR_CUT: [(&[u8], u64, Reason); 5] = [
    (
        b"daemon a:0 0\nstack 0 1 m\nstack x 0 m\n",
        2,
        Reason::Unplaced,
    ),
    (
        b"#\xc3\ndaemon a:0 0\r\nstack 0 0 m\xc3;\nx",
        3,
        Reason::NotUtf8,
    ),
    (
        b"daemon a:0 0\ndaemon b:0 1\nstack 0 0 m\nstack 0 0",
        4,
        Reason::BadDirective,
    ),
    (
        b"daemon a:0 0\ndaemon b:0 1\nstack 0 0 m;\r\n",
        3,
        Reason::BadPath,
    ),
    (
        b"daemon a:0 0\nstack 0 0 \xc3\xa9\n",
        0,
        Reason::DaemonWithoutRank,
    ),
];

#[test]
fn refuses_a_text_wherever_it_is_cut(rt: HostRuntime) {
    let job = job(&rt, rt.alloc());
    for (text, line, reason) in &BAD_OR_CUT {
        for at in 0..text.len() {
            let (first, second) = text.split_at(at);
            let found = read_in_two(rt.alloc(), first, second, &job).err();
            let want = TextError::Bad {
                line: *line,
                reason: *reason,
            };
            assert!(rt; found == Some(want), "{at}");
        }
    }
}
