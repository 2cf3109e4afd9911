//! Storms: simulations that lose many nodes, by many seeds.
use crate::calls::{is_replayed, simulate};
use stat_desk::MemDesk;
use stat_tool::Status;
use std::alloc::Global;
use std::process::Abort;
use std::sync::Wait;
use std::thread::Threads;
use test_jobs::desks::{desk_of, lines_of};
use test_jobs::jobs::{ALL_SCR, STORM_RELEASE, STORM_SMP, STORM_TOP};

// ---- inner nodes

// Whether simulations by four seeds end with the release of all ranks, within the bound on journals.
fn all_are_released<R: Threads + Wait + Sync + Abort>(rt: &R, alloc: Global, faults: &str) -> bool {
    let script = format!(in alloc; "{ALL_SCR}{faults}").expect(rt, "memory");
    let mut desk = desk_of(alloc, STORM_TOP, STORM_SMP, script.as_str()).expect(rt, "memory");
    for seed in 0..4 {
        let called = simulate(rt, alloc, &mut desk, seed);
        let released = called.report.bytes().starts_with(STORM_RELEASE.as_bytes());
        // 15 nodes, 1 wave: 15 * 15 + 9 * 15 + 3 * 15 * (15 + 9)
        if called.status != Status::Done || !released || called.events.len() > 1_440 {
            return false;
        }
    }
    true
}

// Whichever of the six inner nodes are lost, and when, the release is that of the direct merge.
#[test]
fn storms_of_inner_nodes_lose_no_rank(rt: HostRuntime) {
    let alloc = rt.alloc();
    for set in 0..64 {
        for (after, keep) in [(0, 0), (1, 1), (3, 2), (6, 0)] {
            let faults = lines_of(alloc, set, after, keep).expect(&rt, "memory");
            assert!(rt; all_are_released(&rt, alloc, faults.as_str()), "at {set}");
        }
    }
}

// ---- inner nodes and daemons, in streams that don't wait

const HASTY_SCR: &str = "stream 0 dont-wait waves 1 samples 1 on all
stream 1 time-out 2 waves 1 samples 1 on all
lose c0:0 after 2 keep 1
lose c3:0 after 2 keep 1
";

// The daemons that may be lost, and the first of their two ranks.
const DAEMONS: [(&str, u32); 3] = [("d0:0", 0), ("d3:0", 6), ("d7:0", 14)];

pub fn has(ranks: u32, rank: u32) -> bool {
    (ranks >> (rank & 31)) & 1 == 1
}

// The ranks from 0 to 15 that are bits of a number, as a report has them.
pub fn set_text(rt: &impl Abort, alloc: Global, ranks: u32) -> String {
    let mut text = format!(in alloc; "{}:[", ranks.count_ones()).expect(rt, "memory");
    let mut first = 0;
    let mut mark = "";
    for rank in 0..16u32 {
        if !has(ranks, rank) {
            first = rank + 1;
        } else if !has(ranks, rank + 1) {
            let run = if first == rank {
                format!(in alloc; "{mark}{first}").expect(rt, "memory")
            } else {
                format!(in alloc; "{mark}{first}-{rank}").expect(rt, "memory")
            };
            text.push_str(run.as_str()).expect(rt, "memory");
            mark = ",";
        }
    }
    text.push_str("]").expect(rt, "memory");
    text
}

// The class of these ranks, all of which were in main, and in a frame below it or not.
fn class_text(rt: &impl Abort, alloc: Global, ranks: u32, paths: &str) -> String {
    if ranks == 0 {
        return String::new(alloc);
    }
    let set = set_text(rt, alloc, ranks);
    format!(in alloc; "class {set} {paths}").expect(rt, "memory")
}

// The tree and the classes of the storm's samples over these ranks: all are in main, and 3 and 9 in recv, too.
fn tree_text(rt: &impl Abort, alloc: Global, ranks: u32) -> String {
    let receiving = ranks & (1 << 3 | 1 << 9);
    let all = set_text(rt, alloc, ranks);
    let some = set_text(rt, alloc, receiving);
    let mut text = format!(in alloc; "tree\n{all} - /\n").expect(rt, "memory");
    if ranks != 0 {
        text.push_str(
            format!(in alloc; "  {all} {all} main\n")
                .expect(rt, "memory")
                .as_str(),
        )
        .expect(rt, "memory");
    }
    if receiving != 0 {
        text.push_str(
            format!(in alloc; "    {some} {some} recv\n")
                .expect(rt, "memory")
                .as_str(),
        )
        .expect(rt, "memory");
    }
    let others = class_text(rt, alloc, ranks & !receiving, "paths 1\n  main\n");
    let those = class_text(rt, alloc, receiving, "paths 2\n  main\n  main;recv\n");
    let (least, next) = if receiving.trailing_zeros() < (ranks & !receiving).trailing_zeros() {
        (those, others)
    } else {
        (others, those)
    };
    let (least, next) = (least.as_str(), next.as_str());
    let classes = format!(in alloc; "classes\n{least}{next}").expect(rt, "memory");
    text.push_str(classes.as_str()).expect(rt, "memory");
    text
}

// What stands behind the first place of a mark.
fn behind<'a>(bytes: &'a [u8], mark: &[u8]) -> Option<&'a [u8]> {
    for i in 0..bytes.len() {
        if let Some(rest) = bytes[i..].strip_prefix(mark) {
            return Some(rest);
        }
    }
    None
}

// The set of ranks at the front of a line, as the bits of a number.
fn ranks_of(line: &[u8]) -> u32 {
    let mut ranks = 0u32;
    let mut first = None;
    let mut number = None;
    for byte in behind(line, b"[").unwrap_or(b"]") {
        match *byte {
            b'0'..=b'9' => {
                let digit = u32::from(*byte - b'0');
                let before: u32 = number.unwrap_or(0);
                number = Some(before.wrapping_mul(10).wrapping_add(digit));
            }
            b'-' => {
                first = number;
                number = None;
            }
            _ => {
                let last = number.unwrap_or(0);
                for rank in 0..16u32 {
                    if number.is_some() && first.unwrap_or(last) <= rank && rank <= last {
                        ranks |= 1 << rank;
                    }
                }
                first = None;
                number = None;
            }
        }
        if *byte == b']' {
            return ranks;
        }
    }
    ranks
}

// Whether each release of a report is the direct merge of the ranks that it says it covers.
fn all_are_direct(rt: &impl Abort, alloc: Global, report: &[u8]) -> bool {
    let mut rest = report;
    for _ in 0..100 {
        let Some(release) = behind(rest, b"\ncovered ") else {
            return true;
        };
        let tree = tree_text(rt, alloc, ranks_of(release));
        let Some(rows) = behind(release, b"\ntree\n") else {
            return false;
        };
        let expected = tree.as_str().as_bytes();
        let Some(rows_expected) = expected.strip_prefix(b"tree\n".as_slice()) else {
            return false;
        };
        if !rows.starts_with(rows_expected) {
            return false;
        }
        rest = release;
    }
    false
}

// What both streams' final releases say they cover, where these daemons are lost.
fn final_text(rt: &impl Abort, alloc: Global, set: u32) -> String {
    let mut ranks = 0xffffu32;
    let mut lines = String::new(alloc);
    for (number, (name, first)) in (0u32..).zip(DAEMONS.as_slice()) {
        if has(set, number) {
            ranks &= !(3 << (*first & 15));
            let line = format!(in alloc; "lost {name} 2:[{first}-{}]\n", *first | 1).expect(
                rt, "memory",
            );
            lines.push_str(line.as_str()).expect(rt, "memory");
        }
    }
    let covered = set_text(rt, alloc, ranks);
    format!(in alloc; " final\ncovered {covered}\n{lines}tree\n").expect(rt, "memory")
}

// The desk of the job that loses these daemons.
pub fn hasty_desk(rt: &impl Abort, alloc: Global, set: u32) -> MemDesk {
    let mut script = String::from_str(alloc, HASTY_SCR).expect(rt, "memory");
    for (number, (name, _)) in (0u32..).zip(DAEMONS.as_slice()) {
        if has(set, number) {
            script
                .push_str(
                    format!(in alloc; "lose {name} after 0 keep 0\n")
                        .expect(rt, "memory")
                        .as_str(),
                )
                .expect(rt, "memory");
        }
    }
    desk_of(alloc, STORM_TOP, STORM_SMP, script.as_str()).expect(rt, "memory")
}

// Whether a simulation ends with one final release for each stream, which names exactly the lost daemons; each release
// is the direct merge; and a replay prints the same report.
fn is_sound<R: Threads + Wait + Sync + Abort>(rt: &R, alloc: Global, set: u32, seed: u32) -> bool {
    let mut desk = hasty_desk(rt, alloc, set);
    let called = simulate(rt, alloc, &mut desk, seed);
    let report = called.report.bytes();
    let end = final_text(rt, alloc, set);
    let end = end.as_str().as_bytes();
    let Some(rest) = behind(report, end) else {
        return false;
    };
    let finals = behind(rest, end).is_some() && behind(rest, b" partial\nstream 1").is_none();
    // 15 nodes, 2 waves, 2 ticks: 15 * 15 + 9 * 15 + 3 * 15 * 2 * (15 + 9) * 3
    let bounded = called.events.len() <= 6_840;
    let direct = all_are_direct(rt, alloc, report);
    finals && bounded && direct && is_replayed(rt, alloc, &mut desk, &called)
}

// Whether that is so for all seeds below 32.
fn are_sound<R: Threads + Wait + Sync + Abort>(rt: &R, alloc: Global, set: u32) -> bool {
    for seed in 0..32 {
        if !is_sound(rt, alloc, set, seed) {
            return false;
        }
    }
    true
}

#[test]
fn storms_name_no_or_one_daemon(rt: HostRuntime) {
    let alloc = rt.alloc();
    for set in [0, 1, 2, 4] {
        assert!(rt; are_sound(&rt, alloc, set), "at {set}");
    }
}

#[test]
fn storms_name_several_daemons(rt: HostRuntime) {
    let alloc = rt.alloc();
    for set in [3, 5, 6, 7] {
        assert!(rt; are_sound(&rt, alloc, set), "at {set}");
    }
}
