//! Runs that lose nodes.
use crate::calls::run_on;
use stat_tool::Status;
use std::alloc::Global;
use std::process::Abort;
use std::sync::Wait;
use std::thread::Threads;
use test_jobs::desks::{desk_of, lines_of};
use test_jobs::jobs::{
    ALL_SCR, FOUR_RELEASE, FOUR_SMP, NO_B, STORM_RELEASE, STORM_SMP, STORM_TOP, TWO_TOP,
};

const NO_A_NOR_B: &str = "stream 0 wave 0 release 1 final
covered 0:[]
lost a:0 2:[0-1]
lost b:0 2:[2-3]
tree
0:[] - /
classes
fault a:0 lost after 0
fault b:0 lost after 0
end
";

// The report of a run of a job of one wave, with these lines more in its script.
fn report_with<R: Threads + Wait + Sync + Abort>(
    rt: &R,
    alloc: Global,
    topology: &str,
    samples: &str,
    faults: &str,
) -> Vec<u8> {
    let script = format!(in alloc; "{ALL_SCR}{faults}").expect(rt, "memory");
    let mut desk = desk_of(alloc, topology, samples, script.as_str()).expect(rt, "memory");
    let (status, out) = run_on(rt, alloc, &mut desk);
    if let Status::Done = status {
        return out.bytes().to_vec(alloc).expect(rt, "memory");
    }
    Vec::new(alloc)
}

#[test]
fn daemons_are_lost(rt: HostRuntime) {
    let alloc = rt.alloc();
    let report = report_with(&rt, alloc, TWO_TOP, FOUR_SMP, "lose b:0 after 0 keep 0\n");
    assert!(rt; report.as_slice() == NO_B.as_bytes());
    let both = "lose b:0 after 0 keep 0\nlose a:0 after 0 keep 0\n";
    let report = report_with(&rt, alloc, TWO_TOP, FOUR_SMP, both);
    assert!(rt; report.as_slice() == NO_A_NOR_B.as_bytes());
}

#[test]
fn a_fault_is_not_reached(rt: HostRuntime) {
    let alloc = rt.alloc();
    let report = report_with(&rt, alloc, TWO_TOP, FOUR_SMP, "lose b:0 after 9 keep 0\n");
    let expected = format!(in alloc; "{FOUR_RELEASE}fault b:0 not reached\nend\n").expect(
        &rt, "memory",
    );
    assert!(rt; report.as_slice() == expected.as_bytes());
}

// Whichever inner nodes are lost, no rank of a daemon is.
#[test]
fn a_storm_loses_any_inner_nodes(rt: HostRuntime) {
    let alloc = rt.alloc();
    let release = STORM_RELEASE.as_bytes();
    for set in 0..64 {
        for (after, keep) in [(0, 0), (1, 1), (3, 2), (6, 0)] {
            let faults = lines_of(alloc, set, after, keep).expect(&rt, "memory");
            let report = report_with(&rt, alloc, STORM_TOP, STORM_SMP, faults.as_str());
            assert!(rt; report.len() > release.len());
            assert!(rt; &report.as_slice()[..release.len()] == release);
        }
    }
}
