//! Texts as they are printed, and that no call runs out of ample memory.

use generated_job::{generated_plan, make_samples, make_script, make_topology, summary};
use overlay_core::{Kind, Release};
use overlay_event::{Event, Journal};
use prefix_tree::{OwnedTree, PrefixTree};
use rank_set::RankSet;
use std::alloc::Global;
use std::process::Abort;

const TOPOLOGY_OF_17: &[u8] =
    b"fe:0 => m:0 m:1 ;\nm:0 => d:0 d:1 d:2 d:3 d:4 d:5 d:6 d:7 d:8 d:9 d:10 d:11 d:12 d:13 d:14 d:15 ;\nm:1 => d:16 ;\n";

const SCRIPT_OF_17: &[u8] =
    b"stream 0 wait-for-all waves 1 samples 2 on all\nstream 1 dont-wait waves 1 samples 1 on all\nlose m:1 after 20 keep 1\n";

// A size, and its topology.
const TOPOLOGIES: [(u32, &[u8]); 2] = [(1, b"fe:0 => m:0 ;\nm:0 => d:0 ;\n"), (17, TOPOLOGY_OF_17)];

#[test]
fn writes_topologies(rt: HostRuntime) {
    for (size, want) in &TOPOLOGIES {
        let text = make_topology(rt.alloc(), *size).expect(&rt, "memory");
        assert!(rt; text.as_slice() == *want);
    }
}

// 4 % 3 = 1, so rank r at time t is in g((r + t + 1) % 3); 127 / 16 % 4 = 3.
#[test]
fn writes_samples_of_daemons_and_then_of_ranks(rt: HostRuntime) {
    let text = make_samples(rt.alloc(), 4, 2).expect(&rt, "memory");
    assert!(rt;
        text.as_slice().starts_with(
            b"daemon d:0 0-63\ndaemon d:1 64-127\nstack 0 0 main;f0;g1\nstack 0 1 main;f0;g2\n"
        )
    );
    assert!(rt; text.as_slice().ends_with(b"stack 1 127 main;f3;g0\n"));
}

#[test]
fn writes_the_script_of_17(rt: HostRuntime) {
    let text = make_script(rt.alloc(), 17).expect(&rt, "memory");
    assert!(rt; text.as_slice() == SCRIPT_OF_17);
}

#[test]
fn makes_the_plan_of_17(rt: HostRuntime) {
    let plan = generated_plan(rt.alloc(), 0, 17).expect(&rt, "memory");
    assert!(rt; plan.nodes() == 20);
    assert!(rt; plan.streams().len() == 2);
    assert!(rt; plan.faults().len() == 1);
}

// A release of wave 0 over some ranks, without samples.
fn release_over<T: PrefixTree>(
    rt: &impl Abort,
    alloc: Global,
    stream: u8,
    kind: Kind,
    covered: &RankSet,
) -> Release<T> {
    let mut tree = T::empty(alloc);
    tree.cover(covered).expect(rt, "memory");
    Release {
        stream,
        wave: 0,
        number: 1,
        kind,
        tree,
        lost: Vec::new(alloc),
    }
}

// Some ranks are covered by a stream, and no ranks by another.
fn made_up_releases(rt: &impl Abort, alloc: Global) -> [Release<OwnedTree>; 3] {
    let none = RankSet::new(alloc);
    let mut covered = RankSet::new(alloc);
    covered.insert_run(62, 64).expect(rt, "below the limit");
    [
        release_over(rt, alloc, 1, Kind::Partial, &covered),
        release_over(rt, alloc, 1, Kind::Final, &covered),
        release_over(rt, alloc, 0, Kind::Final, &none),
    ]
}

fn made_up_journal(rt: &impl Abort, alloc: Global) -> Journal {
    let mut journal = Journal::new(alloc);
    for event in &[Event::Tick { node: 0 }, Event::Lose { node: 1 }] {
        journal.push(*event).expect(rt, "memory");
    }
    journal
}

const MADE_UP: &[u8] =
    b"gen seed 7 size 1\nnodes 3 ranks 64 lines 128\nevents 2 partial 1 final 2 lost 1\nstream 0 wave 0 covered 0 rows 1 classes 0\nstream 1 wave 0 covered 3 rows 1 classes 1\nend\n";

fn made_up_summary(rt: &impl Abort, alloc: Global) -> Vec<u8> {
    let journal = made_up_journal(rt, alloc);
    let releases = made_up_releases(rt, alloc);
    summary(alloc, 7, 1, &journal, &releases).expect(rt, "memory")
}

#[test]
fn summarizes_each_stream_by_its_final_release(rt: HostRuntime) {
    let text = made_up_summary(&rt, rt.alloc());
    assert!(rt; text.as_slice() == MADE_UP);
}
