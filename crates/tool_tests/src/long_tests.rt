//! Long journals and reports: a call is not out of memory where there is memory.
use crate::calls::{Called, assert_report, call, call_into, report_of, script_of};
use stat_desk::{MemDesk, MemSink};
use stat_tool::Status;
use std::alloc::Global;
use std::process::Abort;
use std::sync::Wait;
use std::thread::Threads;
use test_jobs::desks::{REPLAY_WORDS, WORDS, desk_of, put};
use test_jobs::jobs::ONE_TOP;

// ---- JSON

const JSON_WORDS: [&[&str]; 4] = [
    &[
        "run",
        "--topology=t",
        "--samples=s",
        "--script=c",
        "--report=json",
    ],
    &[
        "sim",
        "--topology=t",
        "--samples=s",
        "--script=c",
        "--report=json",
    ],
    &[
        "direct",
        "--topology=t",
        "--samples=s",
        "--script=c",
        "--report=json",
    ],
    &[
        "replay",
        "--topology=t",
        "--samples=s",
        "--script=c",
        "--journal-in=j",
        "--report=json",
    ],
];

// A release of one rank that was never seen, up to the number of its wave.
const JSON_RELEASE: &str =
    "{\"classes\":[{\"paths\":[],\"ranks\":\"1:[0]\"}],\"covered\":\"1:[0]\",\"kind\":\"final\",\"missing\":[],\"number\":1,\"stream\":0,\"tree\":[{\"depth\":0,\"ends\":\"0:[]\",\"frame\":\"/\",\"label\":\"1:[0]\"}],\"wave\":";

// The report of so many waves of this rank.
fn json_of(rt: &impl Abort, alloc: Global, waves: u32) -> String {
    let mut text = String::from_str(alloc, "{\"faults\":[],\"releases\":[").expect(rt, "memory");
    for wave in 0..waves {
        let mark = if wave == 0 { "" } else { "," };
        text.push_str(
            format!(in alloc; "{mark}{JSON_RELEASE}{wave}")
                .expect(rt, "memory")
                .as_str(),
        )
        .expect(rt, "memory");
        text.push_str("}").expect(rt, "memory");
    }
    text.push_str("]}\n").expect(rt, "memory");
    text
}

#[test]
fn each_mode_writes_sixteen_releases_in_json(rt: HostRuntime) {
    let alloc = rt.alloc();
    let script = script_of(&rt, alloc, 1, 16);
    let mut desk = desk_of(alloc, ONE_TOP, "daemon a:0 0\n", script.as_str()).expect(&rt, "memory");
    let run = call(&rt, alloc, &mut desk, WORDS.as_slice());
    put(alloc, &mut desk, "j", run.journal.bytes()).expect(&rt, "memory");
    let json = json_of(&rt, alloc, 16);
    for texts in JSON_WORDS.as_slice() {
        assert_report(&rt, alloc, &mut desk, texts, &json);
    }
}

// ---- journals

// A front end with 60 daemons of one rank each, and two streams of sixteen waves.
fn long_job(rt: &impl Abort, alloc: Global) -> MemDesk {
    let mut topology = String::from_str(alloc, "fe:0 =>").expect(rt, "memory");
    let mut samples = String::new(alloc);
    for i in 0..60u32 {
        topology
            .push_str(format!(in alloc; " d:{i}").expect(rt, "memory").as_str())
            .expect(rt, "memory");
        samples
            .push_str(
                format!(in alloc; "daemon d:{i} {i}\n")
                    .expect(rt, "memory")
                    .as_str(),
            )
            .expect(rt, "memory");
    }
    topology.push_str(" ;\n").expect(rt, "memory");
    let script = script_of(rt, alloc, 2, 16);
    desk_of(alloc, topology.as_str(), samples.as_str(), script.as_str()).expect(rt, "memory")
}

// A call with room for a long journal.
fn call_at_length<R: Threads + Wait + Sync + Abort>(
    rt: &R,
    alloc: Global,
    desk: &mut MemDesk,
    texts: &[&str],
) -> Called {
    let report = MemSink::new(alloc, 1_000, 100_000).expect(rt, "memory");
    let journal = MemSink::new(alloc, 1_000, 1_000_000).expect(rt, "memory");
    call_into(rt, alloc, desk, texts, report, journal)
}

// Each daemon samples each wave of each stream, sends it, and hears that it has ended: 60 * 16 * 2 * 3 events.
#[test]
fn runs_and_replays_5760_events(rt: HostRuntime) {
    let alloc = rt.alloc();
    let mut desk = long_job(&rt, alloc);
    let report = report_of(&rt, alloc, 2, 16, "60:[0-59]");
    for texts in [WORDS.as_slice(), REPLAY_WORDS.as_slice()] {
        let called = call_at_length(&rt, alloc, &mut desk, texts);
        assert!(rt; called.status == Status::Done);
        assert!(rt; called.events.len() == 5_760);
        assert!(rt; called.report.bytes() == report.as_bytes());
        put(alloc, &mut desk, "j", called.journal.bytes()).expect(&rt, "memory");
    }
}
