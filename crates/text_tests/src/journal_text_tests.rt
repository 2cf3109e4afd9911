//! What no clause says: texts as they are written, and that each call succeeds with ample memory.

use crate::plans::plan_of;
use journal_text::{JournalRead, read_journal};
use overlay_event::{Event, Journal};
use stat_plan::Plan;
use std::alloc::Global;
use std::process::Abort;

// The nodes `fe:0`, `c:0`, `b:0` and `a:0`, of which the last two are daemons.
const NODES: &[u8] = b"fe:0 => c:0 b:0 ;\nc:0 => a:0 ;\n";

const SAMPLES: &[u8] = b"daemon a:0 0\ndaemon b:0 1\n";

const SCRIPT: &[u8] = b"stream 0 wait-for-all waves 12 samples 1 on a:0\n";

fn small_plan(rt: &impl Abort, alloc: Global) -> Plan {
    plan_of(rt, alloc, NODES, SAMPLES, SCRIPT)
}

// A text, the events of its good lines, and the number of its first bad line.
const TEXTS: [(&[u8], &[Event], Option<u64>); 4] = [
    (b"", &[], None),
    (
        b"sample a:0 0 11\nrecv c:0 a:0\r\ntick fe:0\nlose c:0",
        &[
            Event::Sample {
                node: 3,
                stream: 0,
                wave: 11,
            },
            Event::Recv { node: 1, from: 3 },
            Event::Tick { node: 0 },
            Event::Lose { node: 1 },
        ],
        None,
    ),
    // An inner node, and a node that doesn't serve the stream.
    (
        b"sample fe:0 0 0\nsample b:0 0 0\n\ntick a:0\n",
        &[
            Event::Sample {
                node: 0,
                stream: 0,
                wave: 0,
            },
            Event::Sample {
                node: 2,
                stream: 0,
                wave: 0,
            },
        ],
        Some(2),
    ),
    (
        b"lose a:0\r\ngo\nlose a:0\n",
        &[Event::Lose { node: 3 }],
        Some(1),
    ),
];

fn assert_journal(rt: &impl Abort, read: &JournalRead, events: &[Event], bad: Option<u64>) {
    assert!(rt; read.bad == bad);
    assert!(rt; read.events.len() == events.len() as u64);
    for i in 0..read.events.len() {
        assert!(rt; events.get(i as usize) == Some(&read.events.at(i)));
    }
}

#[test]
fn reads_texts_up_to_their_first_bad_line(rt: HostRuntime) {
    let plan = small_plan(&rt, rt.alloc());
    for (text, events, bad) in &TEXTS {
        let read = read_journal(rt.alloc(), &plan, text).expect(&rt, "memory");
        assert_journal(&rt, &read, events, *bad);
    }
}

// Lines that say nothing.
const BAD: [&[u8]; 24] = [
    b"\n",
    b"go",
    b"tick",
    b"tick ",
    b"tick  a:0",
    b" tick a:0",
    b"tick a:0 ",
    b"tick\ta:0",
    b"tick a:00",
    b"tick a",
    b"Tick a:0",
    b"tick A:0",
    b"tick a:0\r\r\n",
    b"lose x:0",
    b"lose a:0 a:0",
    b"recv a:0",
    b"recv a:0 ",
    b"sample a:0 0",
    b"sample a:0 0 00",
    b"sample a:0 00 0",
    b"sample a:0 0 12",
    b"sample a:0 1 0",
    b"sample a:0 256 0",
    b"sample a:0 0 +1",
];

#[test]
fn refuses_bad_lines(rt: HostRuntime) {
    let plan = small_plan(&rt, rt.alloc());
    for text in &BAD {
        let read = read_journal(rt.alloc(), &plan, text).expect(&rt, "memory");
        assert!(rt; read.bad == Some(0));
    }
}

const EVENTS: [Event; 4] = [
    Event::Sample {
        node: 3,
        stream: 1,
        wave: 0,
    },
    Event::Recv { node: 0, from: 3 },
    Event::Tick { node: 2 },
    Event::Lose { node: 3 },
];

#[test]
fn journals_list_events(rt: HostRuntime) {
    let mut journal = Journal::new(rt.alloc());
    assert!(rt; journal.is_empty());
    for event in &EVENTS {
        journal.push(*event).expect(&rt, "memory");
    }
    assert!(rt; !journal.is_empty() && journal.len() == 4);
    for number in 0..journal.len() {
        assert!(rt; EVENTS.get(number as usize) == Some(&journal.at(number)));
    }
}
