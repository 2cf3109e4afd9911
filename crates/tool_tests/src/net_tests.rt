//! The bound of a net's journals, when a net is quiet, and in what order a plan's lines are gone through.
use crate::calls::plan_of;
use overlay_net::Net;
use overlay_setup::WaveTimes;
use prefix_tree::OwnedTree;
use test_jobs::jobs::{FOUR_SMP, TWO_TOP};

const SCRIPT: &str = "stream 0 time-out 1 waves 1 samples 1 on all\n";

#[test]
fn journals_are_bounded(rt: HostRuntime) {
    let alloc = rt.alloc();
    let plan = plan_of(alloc, TWO_TOP, FOUR_SMP, SCRIPT).expect(&rt, "a plan");
    let net: Net<'_, OwnedTree> = Net::new(alloc, &plan).expect(&rt, "a net");
    // 3 nodes, 1 wave, 1 tick: 3 * 3 + 9 * 3 + 3 * 3 * 1 * (3 + 9) * (1 + 1)
    assert!(rt; net.length_bound() == 252);
}

#[test]
fn is_quiet_once_its_events_are_done(rt: HostRuntime) {
    let alloc = rt.alloc();
    let plan = plan_of(alloc, TWO_TOP, FOUR_SMP, SCRIPT).expect(&rt, "a plan");
    let mut net: Net<'_, OwnedTree> = Net::new(alloc, &plan).expect(&rt, "a net");
    assert!(rt; !net.is_quiet());
    let Ok(journal) = net.run_picked(7) else {
        panic!(rt; "a journal");
    };
    assert!(rt; !journal.is_empty());
    assert!(rt; net.is_quiet());
}

// Of the daemon a's lines, the fourth has the least path: `a;b` comes before `a!`.
const UNORDERED_SMP: &str = "daemon a:0 0-1
daemon b:0 2-3
stack 0 0 main;b
stack 0 2 main;c
stack 0 0-1 main;a!
stack 0 1,3 main;a;b
stack 0 1 main;b
";

#[test]
fn goes_through_lines_in_the_order_of_their_paths(rt: HostRuntime) {
    let plan = plan_of(rt.alloc(), TWO_TOP, UNORDERED_SMP, SCRIPT).expect(&rt, "a plan");
    assert!(rt; plan.nodes() > 1);
    let times = WaveTimes {
        samples: 1,
        wave: 0,
    };
    let own = plan.own_lines(1, times).expect(&rt, "lines");
    let lines = own.lines();
    assert!(rt; lines.len() == 4);
    assert!(rt; lines[0].path == 3u32);
    assert!(rt; lines[1].path == 2u32);
    assert!(rt; lines[2].path == 0u32);
    assert!(rt; lines[3].path == 0u32);
}
