//! Random small jobs, which lose random nodes: each by a simulation and by a run on three workers, beside the replays
//! of their journals, and some beside the direct merge.
use crate::calls::{Called, call, is_replayed, run_with, simulate};
use stat_desk::MemDesk;
use stat_tool::Status;
use std::alloc::Global;
use std::process::Abort;
use std::sync::Wait;
use std::thread::Threads;
use test_jobs::desks::desk_of;

// Numbers that look random, and are the same each time.
#[derive(Drop)]
struct Dice {
    state: u32,
}

impl Dice {
    // A number below this one.
    fn below(&mut self, end: u32) -> u32 {
        self.state = self
            .state
            .wrapping_mul(1_664_525)
            .wrapping_add(1_013_904_223);
        (self.state >> 16).wrapping_mul(end) >> 16
    }

    // A number from this one on, of so many.
    fn among(&mut self, least: u32, count: u32) -> u32 {
        self.below(count).wrapping_add(least)
    }

    // One of these words.
    fn word<'a>(&mut self, words: &[&'a str]) -> &'a str {
        let count = u32::try_from(words.len()).unwrap_or(0);
        let number = self.below(count);
        words.get(number as usize).copied().unwrap_or("")
    }
}

// ---- the nodes

// The parents of the nodes behind the front end, which is node 0; each is a node before them. There are 3 to 9 nodes.
fn parents_of(rt: &impl Abort, alloc: Global, dice: &mut Dice) -> Vec<u32> {
    let mut parents = Vec::new(alloc);
    let count = dice.among(3, 7);
    for node in 1..count {
        parents.push(dice.below(node)).expect(rt, "memory");
    }
    parents
}

// Whether a node has no child.
fn is_daemon(parents: &[u32], node: u32) -> bool {
    !parents.contains(&node)
}

// The names of a node's children.
fn children_text(rt: &impl Abort, alloc: Global, parents: &[u32], node: u32) -> String {
    let mut text = String::new(alloc);
    for (child, parent) in (1u32..).zip(parents) {
        if *parent == node {
            text.push_str(
                format!(in alloc; " n{child}:0")
                    .expect(rt, "memory")
                    .as_str(),
            )
            .expect(rt, "memory");
        }
    }
    text
}

fn topology_text(rt: &impl Abort, alloc: Global, parents: &[u32]) -> String {
    let mut text = String::new(alloc);
    for node in 0..9u32 {
        if !is_daemon(parents, node) {
            let children = children_text(rt, alloc, parents, node);
            text.push_str(
                format!(in alloc; "n{node}:0 =>{children} ;\n")
                    .expect(rt, "memory")
                    .as_str(),
            )
            .expect(rt, "memory");
        }
    }
    text
}

// ---- the samples

const PATHS: [&str; 7] = [
    "main",
    "main;MPI_Barrier;poll",
    "main;MPI_Barrier",
    "main;solve@10",
    "main;solve@12;MPI_Recv",
    "start;main",
    "idle",
];

// The lines that place 1 to 4 ranks on each daemon.
fn daemons_text(rt: &impl Abort, alloc: Global, parents: &[u32]) -> String {
    let mut text = String::new(alloc);
    for (node, _) in (1u32..).zip(parents) {
        if is_daemon(parents, node) {
            let (first, last) = (node << 2, (node << 2) | (node & 3));
            text.push_str(
                format!(in alloc; "daemon n{node}:0 {first}-{last}\n")
                    .expect(rt, "memory")
                    .as_str(),
            )
            .expect(rt, "memory");
        }
    }
    text
}

// Some ranks of some daemons; they may be none.
fn ranks_text(rt: &impl Abort, alloc: Global, dice: &mut Dice, parents: &[u32]) -> String {
    let mut text = String::new(alloc);
    for (node, _) in (1u32..).zip(parents) {
        let (first, ranks) = (node << 2, dice.below(3).wrapping_mul(node & 3));
        if is_daemon(parents, node) && dice.below(2) == 0 {
            let mark = if text.is_empty() { "" } else { "," };
            let last = first | ((ranks / 2) & 3);
            text.push_str(
                format!(in alloc; "{mark}{first}-{last}")
                    .expect(rt, "memory")
                    .as_str(),
            )
            .expect(rt, "memory");
        }
    }
    text
}

fn samples_text(rt: &impl Abort, alloc: Global, dice: &mut Dice, parents: &[u32]) -> String {
    let mut text = daemons_text(rt, alloc, parents);
    for _ in 0..dice.below(12) {
        let ranks = ranks_text(rt, alloc, dice, parents);
        let (time, path) = (dice.below(6), dice.word(PATHS.as_slice()));
        if !ranks.is_empty() {
            text.push_str(
                format!(in alloc; "stack {time} {ranks} {path}\n")
                    .expect(rt, "memory")
                    .as_str(),
            )
            .expect(rt, "memory");
        }
    }
    text
}

// ---- the script

const WAITING: [&str; 1] = ["wait-for-all"];

const MODES: [&str; 4] = ["wait-for-all", "time-out 1", "time-out 3", "dont-wait"];

const GRAINS: [&str; 3] = ["", "by line ", "by function "];

// The names of some daemons, or the word for all.
fn serving_text(rt: &impl Abort, alloc: Global, dice: &mut Dice, parents: &[u32]) -> String {
    let mut text = String::new(alloc);
    for (node, _) in (1u32..).zip(parents) {
        if is_daemon(parents, node) && dice.below(3) == 0 {
            text.push_str(
                format!(in alloc; " n{node}:0")
                    .expect(rt, "memory")
                    .as_str(),
            )
            .expect(rt, "memory");
        }
    }
    if text.is_empty() {
        text.push_str(" all").expect(rt, "memory");
    }
    text
}

// The streams of a script, 1 to 3, of some of these modes.
fn streams_text(
    rt: &impl Abort,
    alloc: Global,
    dice: &mut Dice,
    parents: &[u32],
    modes: &[&str],
) -> String {
    let mut text = String::new(alloc);
    for stream in 0..dice.among(1, 3) {
        let (mode, grain) = (dice.word(modes), dice.word(GRAINS.as_slice()));
        let (waves, samples) = (dice.among(1, 3), dice.among(1, 2));
        let who = serving_text(rt, alloc, dice, parents);
        let line = format!(in alloc;
            "stream {stream} {mode} waves {waves} samples {samples} {grain}on{who}\n"
        ).expect(rt, "memory");
        text.push_str(line.as_str()).expect(rt, "memory");
    }
    text
}

// The lines that lose some nodes: inner nodes, and where it is said daemons, too.
fn losses_text(
    rt: &impl Abort,
    alloc: Global,
    dice: &mut Dice,
    parents: &[u32],
    daemons: bool,
) -> String {
    let mut text = String::new(alloc);
    for (node, _) in (1u32..).zip(parents) {
        let (after, keep) = (dice.below(7), dice.below(3));
        if dice.below(2) == 0 && (daemons || !is_daemon(parents, node)) {
            let line = format!(in alloc; "lose n{node}:0 after {after} keep {keep}\n").expect(
                rt, "memory",
            );
            text.push_str(line.as_str()).expect(rt, "memory");
        }
    }
    text
}

// ---- the jobs

// The files of a job. Where its streams wait for all, it loses no daemon.
fn desk_of_job(rt: &impl Abort, alloc: Global, dice: &mut Dice, waits: bool) -> MemDesk {
    let parents = parents_of(rt, alloc, dice);
    let topology = topology_text(rt, alloc, parents.as_slice());
    let samples = samples_text(rt, alloc, dice, parents.as_slice());
    let modes = if waits {
        WAITING.as_slice()
    } else {
        MODES.as_slice()
    };
    let mut script = streams_text(rt, alloc, dice, parents.as_slice(), modes);
    script
        .push_str(losses_text(rt, alloc, dice, parents.as_slice(), !waits).as_str())
        .expect(rt, "memory");
    desk_of(alloc, topology.as_str(), samples.as_str(), script.as_str()).expect(rt, "memory")
}

// Whether a report has just these releases, and then only lines of losses.
fn has_releases(report: &[u8], releases: &[u8]) -> bool {
    match report.strip_prefix(releases) {
        Some(rest) => rest == b"end\n".as_slice() || rest.starts_with(b"fault "),
        None => false,
    }
}

const DIRECT_WORDS: [&str; 5] = [
    "direct",
    "--topology=t",
    "--samples=s",
    "--script=c",
    "--workers=3",
];

// Whether a simulation and a run have exactly the releases of the direct merge, by three workers.
fn are_direct<R: Threads + Wait + Sync + Abort>(
    rt: &R,
    alloc: Global,
    desk: &mut MemDesk,
    sim: &Called,
    run: &Called,
) -> bool {
    let direct = call(rt, alloc, desk, DIRECT_WORDS.as_slice());
    let Some(releases) = direct.report.bytes().strip_suffix(b"end\n") else {
        return false;
    };
    direct.status == Status::Done
        && has_releases(sim.report.bytes(), releases)
        && has_releases(run.report.bytes(), releases)
}

// Whether a simulation by this seed and a run on three workers both come out as the replays of their journals, and
// where the job waits for all as the direct merge.
fn is_sound<R: Threads + Wait + Sync + Abort>(
    rt: &R,
    alloc: Global,
    desk: &mut MemDesk,
    seed: u32,
    waits: bool,
) -> bool {
    let sim = simulate(rt, alloc, desk, seed);
    let run = run_with(rt, alloc, desk, 3);
    let replayed = is_replayed(rt, alloc, desk, &sim) && is_replayed(rt, alloc, desk, &run);
    if waits {
        return replayed && are_direct(rt, alloc, desk, &sim, &run);
    }
    replayed
}

#[test]
fn a_hundred_random_jobs_come_out_as_their_replays(rt: HostRuntime) {
    let alloc = rt.alloc();
    let mut dice = Dice { state: 1 };
    for number in 0..50 {
        for waits in [true, false] {
            let mut desk = desk_of_job(&rt, alloc, &mut dice, waits);
            assert!(rt;
                is_sound(&rt, alloc, &mut desk, number, waits),
                "at {number}"
            );
        }
    }
}

// ---- direct merges by several workers

const REPORT_FORMS: [&str; 2] = ["--report=text", "--report=json"];

const MORE_WORKERS: [&str; 4] = ["--workers=2", "--workers=3", "--workers=8", "--workers=32"];

// A direct merge, with a report in this form, by so many workers.
fn merge_by<R: Threads + Wait + Sync + Abort>(
    rt: &R,
    alloc: Global,
    desk: &mut MemDesk,
    form: &str,
    workers: &str,
) -> Called {
    let words = [
        "direct",
        "--topology=t",
        "--samples=s",
        "--script=c",
        form,
        workers,
    ];
    call(rt, alloc, desk, words.as_slice())
}

// Whether any number of workers writes what one does.
fn is_one_report<R: Threads + Wait + Sync + Abort>(
    rt: &R,
    alloc: Global,
    desk: &mut MemDesk,
    form: &str,
) -> bool {
    let alone = merge_by(rt, alloc, desk, form, "--workers=1");
    for workers in MORE_WORKERS {
        let merged = merge_by(rt, alloc, desk, form, workers);
        if merged.status != Status::Done || merged.report.bytes() != alone.report.bytes() {
            return false;
        }
    }
    alone.status == Status::Done
}

// Jobs that wait for all and others, and both forms of a report, by turns.
#[test]
fn two_hundred_random_jobs_are_merged_alike_by_any_number_of_workers(rt: HostRuntime) {
    let alloc = rt.alloc();
    let mut dice = Dice { state: 2 };
    for _ in 0..50 {
        for waits in [true, false] {
            for form in REPORT_FORMS {
                let mut desk = desk_of_job(&rt, alloc, &mut dice, waits);
                assert!(rt; is_one_report(&rt, alloc, &mut desk, form));
            }
        }
    }
}
