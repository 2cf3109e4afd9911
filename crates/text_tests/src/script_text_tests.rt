//! What no clause says: texts as they are written, and that each call succeeds with ample memory.

use overlay_setup::{Fault, Grain, Mode, Script, Topology};
use script_text::read;
use std::alloc::Global;
use std::process::Abort;
use text_lines::{Quantity, Reason, TextError};

// The nodes `fe:0`, `c:0`, `d:0`, `b:0` and `a:0`, of which the last three are daemons.
const JOB: &[u8] = b"fe:0 => c:0 d:0 ;\nc:0 => b:0 a:0 ;\n";

fn job(rt: &impl Abort, alloc: Global) -> Topology {
    topology_text::read(alloc, JOB).expect(rt, "a topology")
}

// A stream as it is wanted.
#[derive(Drop)]
struct Wanted {
    number: u8,
    mode: Mode,
    waves: u8,
    samples: u8,
    grain: Grain,
    daemons: &'static [u32],
}

// A text, its streams, and its losses.
#[derive(Drop)]
struct Accepted {
    text: &'static [u8],
    streams: &'static [Wanted],
    faults: &'static [Fault],
}

const ACCEPTED: [Accepted; 6] = [
    Accepted {
        text: b"stream 0 dont-wait waves 1 samples 1 by  function\ton a:0\nstream 1 time-out 2 waves 1 samples 1 by line on all",
        streams: &[
            Wanted {
                number: 0,
                mode: Mode::DontWait,
                waves: 1,
                samples: 1,
                grain: Grain::Function,
                daemons: &[4],
            },
            Wanted {
                number: 1,
                mode: Mode::TimeOut(2),
                waves: 1,
                samples: 1,
                grain: Grain::Line,
                daemons: &[2, 3, 4],
            },
        ],
        faults: &[],
    },
    Accepted {
        text: b"stream 0 dont-wait waves 1 samples 1 on all",
        streams: &[Wanted {
            number: 0,
            mode: Mode::DontWait,
            waves: 1,
            samples: 1,
            grain: Grain::Line,
            daemons: &[2, 3, 4],
        }],
        faults: &[],
    },
    Accepted {
        text: b"# \xff\xc3\nstream 7 time-out 1 waves 16 samples 64 on a:0 b:0 a:0\n\r\n \t\r\nstream 2 wait-for-all waves 2 samples 3 on d:0\n",
        streams: &[
            Wanted {
                number: 2,
                mode: Mode::WaitForAll,
                waves: 2,
                samples: 3,
                grain: Grain::Line,
                daemons: &[2],
            },
            Wanted {
                number: 7,
                mode: Mode::TimeOut(1),
                waves: 16,
                samples: 64,
                grain: Grain::Line,
                daemons: &[3, 4],
            },
        ],
        faults: &[],
    },
    Accepted {
        text: b"lose a:0 after 65535 keep 0\r\nlose c:0 after 0 keep 65535\r\n\t stream\t0 time-out 1000 waves 1 samples 1 on all \t\r",
        streams: &[Wanted {
            number: 0,
            mode: Mode::TimeOut(1000),
            waves: 1,
            samples: 1,
            grain: Grain::Line,
            daemons: &[2, 3, 4],
        }],
        faults: &[
            Fault {
                node: 1,
                after: 0,
                keep: 65_535,
            },
            Fault {
                node: 4,
                after: 65_535,
                keep: 0,
            },
        ],
    },
    Accepted {
        text: b"stream 00000000000000000000000000000000000000000000000000000000000000000000000000000000000000000000000000000000000000000000000000000000000000000000000000000000000000000000000000000000000000000000000000000003 dont-wait waves 016 samples 0064 on d:0",
        streams: &[Wanted {
            number: 3,
            mode: Mode::DontWait,
            waves: 16,
            samples: 64,
            grain: Grain::Line,
            daemons: &[2],
        }],
        faults: &[],
    },
    Accepted {
        text: b"stream 1 dont-wait waves 1 samples 1 on b:0\nstream 0 dont-wait waves 1 samples 1 on b:0\n#stream 0",
        streams: &[
            Wanted {
                number: 0,
                mode: Mode::DontWait,
                waves: 1,
                samples: 1,
                grain: Grain::Line,
                daemons: &[3],
            },
            Wanted {
                number: 1,
                mode: Mode::DontWait,
                waves: 1,
                samples: 1,
                grain: Grain::Line,
                daemons: &[3],
            },
        ],
        faults: &[],
    },
];

fn assert_script(rt: &impl Abort, script: &Script, case: &Accepted) {
    assert!(rt; script.streams().len() == case.streams.len());
    for (stream, wanted) in script.streams().iter().zip(case.streams) {
        assert!(rt; stream.number() == wanted.number);
        assert!(rt; stream.mode() == wanted.mode);
        assert!(rt; stream.waves() == wanted.waves);
        assert!(rt; stream.samples() == wanted.samples);
        assert!(rt; stream.grain() == wanted.grain);
        assert!(rt; stream.daemons() == wanted.daemons);
    }
    assert!(rt; script.faults() == case.faults);
}

#[test]
fn accepts_scripts(rt: HostRuntime) {
    let job = job(&rt, rt.alloc());
    for case in &ACCEPTED {
        let script = read(rt.alloc(), case.text, &job).expect(&rt, "a script");
        assert_script(&rt, &script, case);
    }
}

// A text, and the line and reason of its first fault.
const BAD: [(&[u8], u64, Reason); 53] = [
    (b"", 0, Reason::NoStream),
    (b"\n# x\n \t\r\n", 0, Reason::NoStream),
    (b"lose a:0 after 1 keep 1\n", 0, Reason::NoStream),
    (b" # x", 1, Reason::BadDirective),
    (
        b"\xef\xbb\xbfstream 0 dont-wait waves 1 samples 1 on all",
        1,
        Reason::BadDirective,
    ),
    (
        b"Stream 0 dont-wait waves 1 samples 1 on all",
        1,
        Reason::BadDirective,
    ),
    (b"\n\n\xff", 3, Reason::BadDirective),
    (b"stream", 1, Reason::BadDirective),
    (b"stream 0", 1, Reason::BadDirective),
    (
        b"stream 0 dont-wait waves 1 samples 1",
        1,
        Reason::BadDirective,
    ),
    (
        b"stream 0 dont-wait waves 1 samples 1 on",
        1,
        Reason::BadDirective,
    ),
    (
        b"stream 0 dont-wait waves 1 samples 1 on all x",
        1,
        Reason::BadDirective,
    ),
    (
        b"stream 0 dont-wait waves 1 samples 1 on all all",
        1,
        Reason::BadDirective,
    ),
    (
        b"stream 0 wait waves 1 samples 1 on all",
        1,
        Reason::BadDirective,
    ),
    (
        b"stream 0 time-out waves 1 samples 1 on all",
        1,
        Reason::BadDirective,
    ),
    (
        b"stream 0 dont-wait 1 waves 1 samples 1 on all",
        1,
        Reason::BadDirective,
    ),
    (
        b"stream x time-out 0 waves 0 samples 0 off x",
        1,
        Reason::BadDirective,
    ),
    (
        b"stream 0 dont-wait waves 1 samples 1 on\r all",
        1,
        Reason::BadDirective,
    ),
    (
        b"stream x dont-wait waves 1 samples 1 by word on all",
        1,
        Reason::BadDirective,
    ),
    (
        b"stream x dont-wait waves 1 samples 1 by",
        1,
        Reason::BadDirective,
    ),
    (
        b"stream x dont-wait waves 1 samples 1 by line",
        1,
        Reason::BadDirective,
    ),
    (
        b"stream x dont-wait waves 1 samples 1 by line all",
        1,
        Reason::BadDirective,
    ),
    (
        b"stream x dont-wait waves 1 samples 1 by line by line on all",
        1,
        Reason::BadDirective,
    ),
    (
        b"stream x dont-wait waves 1 samples 1 on all by line",
        1,
        Reason::BadDirective,
    ),
    (b"lose a:0 after 1 keep", 1, Reason::BadDirective),
    (b"lose a:0 after 1 keep 1 1", 1, Reason::BadDirective),
    (b"lose x keep x after x", 1, Reason::BadDirective),
    (
        b"stream x dont-wait waves 1 samples 1 on all",
        1,
        Reason::BadNumber,
    ),
    (
        b"stream -1 dont-wait waves 1 samples 1 on all",
        1,
        Reason::BadNumber,
    ),
    (
        b"stream 0\xff dont-wait waves 1 samples 1 on all",
        1,
        Reason::BadNumber,
    ),
    (
        b"stream 0 time-out 0 waves 17 samples 1 on all",
        1,
        Reason::BadNumber,
    ),
    (
        b"stream 0 time-out 1001 waves 17 samples 1 on all",
        1,
        Reason::BadNumber,
    ),
    (
        b"stream 0 time-out +1 waves 17 samples 1 on all",
        1,
        Reason::BadNumber,
    ),
    (
        b"stream 0 dont-wait waves 0 samples 1 on x",
        1,
        Reason::BadNumber,
    ),
    (
        b"stream 0 dont-wait waves 1x samples 1 on x",
        1,
        Reason::BadNumber,
    ),
    (
        b"stream 0 dont-wait waves 1 samples 0 on x",
        1,
        Reason::BadNumber,
    ),
    (
        b"stream 0 dont-wait waves 1 samples 65 on x",
        1,
        Reason::BadNumber,
    ),
    (
        b"stream 0 dont-wait waves 1 samples 1 on a:0 all",
        1,
        Reason::NotADaemon,
    ),
    (
        b"stream 0 dont-wait waves 1 samples 1 on c:0",
        1,
        Reason::NotADaemon,
    ),
    (
        b"stream 0 dont-wait waves 1 samples 1 on fe:0",
        1,
        Reason::NotADaemon,
    ),
    (
        b"stream 0 dont-wait waves 1 samples 1 on a:0\xff",
        1,
        Reason::NotADaemon,
    ),
    (
        b"stream 0 dont-wait waves 1 samples 1 on all\r\r\n",
        1,
        Reason::NotADaemon,
    ),
    (
        b"stream 0 dont-wait waves 1 samples 1 on all\nstream 0 time-out 0 waves 0 samples 0 on x",
        2,
        Reason::SecondStream,
    ),
    (b"lose x after x keep x", 1, Reason::UnknownNode),
    (b"\nlose fe:0 after x keep x", 2, Reason::LosesFront),
    (
        b"lose a:0 after 1 keep 1\r\nlose a:0 after x keep x",
        2,
        Reason::SecondLoss,
    ),
    (b"lose a:0 after x keep 1", 1, Reason::BadNumber),
    (b"lose a:0 after 65536 keep 1", 1, Reason::BadNumber),
    (b"lose a:0 after 1 keep 65536", 1, Reason::BadNumber),
    (b"lose a:0 after 1 keep 0x1", 1, Reason::BadNumber),
    (
        b"lose a:0 after 1 keep 11111111111111111111111111111111111111111111111111111111111111111111111111111111111111111111111111111111111111111111111111111111111111111111111111111111111111111111111111111111111111111111111111111111111111111111",
        1,
        Reason::BadNumber,
    ),
    (b"lose\nstream", 1, Reason::BadDirective),
    (
        b"lose b:0 after 1 keep 1\nlose d:0 after 1 keep x\n\xff",
        2,
        Reason::BadNumber,
    ),
];

fn is_refused(alloc: Global, text: &[u8], job: &Topology, want: TextError) -> bool {
    read(alloc, text, job).err() == Some(want)
}

#[test]
fn refuses_texts_at_the_first_fault(rt: HostRuntime) {
    let job = job(&rt, rt.alloc());
    for (text, line, reason) in &BAD {
        let want = TextError::Bad {
            line: *line,
            reason: *reason,
        };
        assert!(rt; is_refused(rt.alloc(), text, &job, want), "line {line}");
    }
}

// A text, and the line, the quantity and the limit of its first fault.
const OVER: [(&[u8], u64, Quantity, u64); 5] = [
    (
        b"stream 8 time-out 0 waves 0 samples 0 on x",
        1,
        Quantity::Streams,
        8,
    ),
    (
        b"stream 99999999999999999999999999999999999999999999999999999999999999999999999999999999999999999999999999999999999999999999999999999999999999999999999999999999999999999999999999999999999999999999999999999999999999999999 dont-wait waves 1 samples 1 on all",
        1,
        Quantity::Streams,
        8,
    ),
    (
        b"\nstream 0 dont-wait waves 17 samples 0 on x",
        2,
        Quantity::Waves,
        16,
    ),
    (
        b"stream 0 dont-wait waves 4294967297 samples 1 on all",
        1,
        Quantity::Waves,
        16,
    ),
    (
        b"stream 0 dont-wait waves 1 samples 1 on all\nstream 18446744073709551616 dont-wait waves 1 samples 1 on all",
        2,
        Quantity::Streams,
        8,
    ),
];

#[test]
fn refuses_what_is_too_much(rt: HostRuntime) {
    let job = job(&rt, rt.alloc());
    for (text, line, what, limit) in &OVER {
        let want = TextError::Over {
            line: *line,
            what: *what,
            limit: *limit,
        };
        assert!(rt; is_refused(rt.alloc(), text, &job, want), "line {line}");
    }
}

// Appends the name of a daemon, one of at most 676, and what stands behind it.
fn push_name(rt: &impl Abort, text: &mut Vec<u8>, n: u32, behind: &[u8]) {
    let name = [
        b'a' + (n / 26).min(25) as u8,
        b'a' + (n % 26) as u8,
        b':',
        b'0',
    ];
    text.extend_from_slice(&name).expect(rt, "memory");
    text.extend_from_slice(behind).expect(rt, "memory");
}

// A front end and 511 daemons.
fn large_job(rt: &impl Abort, alloc: Global) -> Topology {
    let mut text = b"FE:0 => ".to_vec(alloc).expect(rt, "memory");
    for n in 0..511 {
        push_name(rt, &mut text, n, if n < 510 { b" " } else { b" ;\n" });
    }
    topology_text::read(alloc, &text).expect(rt, "a topology")
}

// A stream of all daemons, and so many losses, the last nodes first.
fn many_losses(rt: &impl Abort, alloc: Global, count: u32) -> Vec<u8> {
    let stream = b"stream 0 dont-wait waves 1 samples 1 on all\n";
    let mut text = stream.to_vec(alloc).expect(rt, "memory");
    for n in 0..count {
        text.extend_from_slice(b"lose ").expect(rt, "memory");
        push_name(rt, &mut text, 510 - n.min(510), b" after 1 keep 2\n");
    }
    text
}

#[test]
fn reads_as_many_losses_as_may_be(rt: HostRuntime) {
    let job = large_job(&rt, rt.alloc());
    let text = many_losses(&rt, rt.alloc(), 256);
    let script = read(rt.alloc(), &text, &job).expect(&rt, "a script");
    assert!(rt; script.faults().len() == 256);
    assert!(rt; script.faults().first().map(|fault| fault.node) == Some(256));
}

const LOSS_MORE: TextError = TextError::Over {
    line: 258,
    what: Quantity::Faults,
    limit: 256,
};

// A line past the limit of losses is refused as that, whatever else is wrong with it.
#[test]
fn refuses_a_loss_more(rt: HostRuntime) {
    let job = large_job(&rt, rt.alloc());
    let text = many_losses(&rt, rt.alloc(), 257);
    assert!(rt; is_refused(rt.alloc(), &text, &job, LOSS_MORE));
    let mut text = many_losses(&rt, rt.alloc(), 256);
    text.extend_from_slice(b"lose x after 1 keep 1\n")
        .expect(&rt, "memory");
    assert!(rt; is_refused(rt.alloc(), &text, &job, LOSS_MORE));
}
