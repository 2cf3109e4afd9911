//! Commands to the daemons in storms: whichever nodes are lost, and when, each daemon that lives obeys each command.
use crate::calls::{Called, call};
use crate::seed_tests::{has, hasty_desk, set_text};
use stat_desk::MemDesk;
use stat_tool::Status;
use std::alloc::Global;
use std::process::Abort;
use std::sync::Wait;
use std::thread::Threads;
use test_jobs::desks::{desk_of, lines_of};
use test_jobs::jobs::{ALL_SCR, STORM_SMP, STORM_TOP};

// Three commands with events that this seed picks.
fn cast<R: Threads + Wait + Sync + Abort>(
    rt: &R,
    alloc: Global,
    desk: &mut MemDesk,
    seed: u32,
) -> Called {
    let option = format!(in alloc; "--seed={seed}").expect(rt, "memory");
    let words = [
        "cast",
        "--topology=t",
        "--samples=s",
        "--script=c",
        "--commands=3",
        option.as_str(),
    ];
    call(rt, alloc, desk, words.as_slice())
}

// Whether a daemon is among those of a set that a storm loses: bits for d0, d3 and d7.
fn is_lost(set: u32, number: u32) -> bool {
    match number {
        0 => has(set, 0),
        3 => has(set, 1),
        7 => has(set, 2),
        _ => false,
    }
}

// What is printed of three commands, where the daemons of a set are lost before they obey one.
fn cast_report(rt: &impl Abort, alloc: Global, set: u32) -> String {
    let mut ranks = 0xffff;
    let mut daemons = String::new(alloc);
    for number in 0u32..8 {
        let obeyed = if is_lost(set, number) { "0 lost" } else { "3" };
        if is_lost(set, number) {
            ranks &= !(3 << (2 * number));
        }
        daemons
            .push_str(
                format!(in alloc; "daemon d{number}:0 obeyed {obeyed}\n")
                    .expect(rt, "memory")
                    .as_str(),
            )
            .expect(rt, "memory");
    }
    let ranks = set_text(rt, alloc, ranks);
    format!(in alloc;
        "command 1 ranks {ranks}\ncommand 2 ranks {ranks}\ncommand 3 ranks {ranks}\n{daemons}end\n"
    ).expect(rt, "memory")
}

// Whether calls by the seeds below a number all print this.
fn all_print<R: Threads + Wait + Sync + Abort>(
    rt: &R,
    alloc: Global,
    desk: &mut MemDesk,
    seeds: u32,
    report: &str,
) -> bool {
    for seed in 0..seeds {
        let called = cast(rt, alloc, desk, seed);
        if called.status != Status::Done || called.report.bytes() != report.as_bytes() {
            return false;
        }
    }
    true
}

// Whichever of the six inner nodes are lost, and when, all daemons obey all commands.
#[test]
fn commands_reach_all_in_storms_of_inner_nodes(rt: HostRuntime) {
    let alloc = rt.alloc();
    let report = cast_report(&rt, alloc, 0);
    for set in 0..64 {
        for (after, keep) in [(0, 0), (1, 1), (3, 2), (6, 0)] {
            let faults = lines_of(alloc, set, after, keep).expect(&rt, "memory");
            let script = format!(in alloc; "{ALL_SCR}{faults}").expect(&rt, "memory");
            let mut desk = desk_of(alloc, STORM_TOP, STORM_SMP, script.as_str()).expect(
                &rt, "memory",
            );
            assert!(rt;
                all_print(&rt, alloc, &mut desk, 4, report.as_str()),
                "at {set}"
            );
        }
    }
}

// Two inner nodes are lost, and daemons, too, before they obey a command: all others obey all.
#[test]
fn commands_reach_all_that_live(rt: HostRuntime) {
    let alloc = rt.alloc();
    for set in 0..8 {
        let report = cast_report(&rt, alloc, set);
        let mut desk = hasty_desk(&rt, alloc, set);
        assert!(rt;
            all_print(&rt, alloc, &mut desk, 32, report.as_str()),
            "at {set}"
        );
    }
}
