//! Trees and classes that several workers make, with those that one makes.

ghost use Rattle.std.specs.Prelude.{◌≤◌, ◌<◌, ℕ};
ghost use Rattle.merge_filter.specs.Contributions.{HasWave};

use crate::plans::plan_of;
use arena_tree::ArenaTree;
use equiv_class::{Class, classes};
use merge_filter::{Contribution, direct};
use overlay_event::{Event, Gate, OpenGate};
use overlay_setup::StreamDef;
use prefix_tree::PrefixTree;
use rank_set::RankSet;
use stat_plan::Plan;
use std::alloc::Global;
use std::process::Abort;
use std::sync::atomic::{AtomicU64, Ordering};
use std::thread::Threads;
use tree_text::{write_numbered, write_tree};
use wide_merge::{WideMerge, lists_of_classes, unite, wide_classes, wide_tree};

const NODES: &[u8] = b"fe:0 => a:0 b:0 c:0 d:0 e:0 ;\n";

const SAMPLES: &[u8] =
    b"daemon a:0 0-1\ndaemon b:0 2\ndaemon c:0 3-4\ndaemon d:0 5\ndaemon e:0 70-71\n\
    stack 0 0,2-3,70 main;a\nstack 0 1,5 main;b\nstack 0 4,71 main\n";

const SCRIPT: &[u8] = b"stream 0 wait-for-all waves 1 samples 1 on all\n";

const ROWS: &[u8] = b"8:[0-5,70-71] - /\n  8:[0-5,70-71] 2:[4,71] main\n\
    \x20   4:[0,2-3,70] 4:[0,2-3,70] a\n    2:[1,5] 2:[1,5] b\n";

const CLASSES: &[u8] = b"4:[0,2-3,70] 1\n2:[1,5] 2\n2:[4,71] 0\n";

fn assert_rows<T: PrefixTree>(rt: &impl Abort, alloc: Global, all: &Contribution<T>) {
    let mut text = Vec::new(alloc);
    write_tree(all.tree(), &mut text).expect(rt, "memory");
    assert!(rt; text.as_slice() == ROWS);
}

// The ranks of each class, and the indices of its paths.
fn assert_classes(rt: &impl Abort, alloc: Global, all: &[Class], want: &[u8]) {
    let mut text = Vec::new(alloc);
    for class in all {
        class.ranks.write_text(&mut text).expect(rt, "memory");
        for index in &class.paths {
            write_numbered(b" ", *index, &mut text).expect(rt, "memory");
        }
        text.push(b'\n').expect(rt, "memory");
    }
    assert!(rt; text.as_slice() == want);
}

// A wave's tree by so many workers, and its classes.
fn assert_wave<R: Threads + Sync + Abort, T: PrefixTree>(
    rt: &R,
    merge: &WideMerge<'_, OpenGate>,
    workers: u32,
)
    requires wave { HasWave merge.now.plan.now merge.now.stream merge.now.wave }
    requires workers { (1 ≤ workers) × (workers ≤ 32) }
{
    let all: Contribution<T> = wide_tree(rt, merge, workers).expect(rt, "memory");
    assert_rows(rt, merge.alloc, &all);
    let found = wide_classes(rt, merge.alloc, all.tree(), workers).expect(rt, "memory");
    assert_classes(rt, merge.alloc, &found.all, CLASSES);
}

// A gate that counts who passes it.
#[derive(Drop)]
struct CountingGate {
    passes: AtomicU64,
    nodes: AtomicU64,
}

impl Gate for CountingGate {
    fn pass(&self, event: &Event) {
        self.passes.fetch_add(1, Ordering::SeqCst);
        self.nodes
            .fetch_add(u64::from(event.node()), Ordering::SeqCst);
    }

    fn may_wait(&self) -> bool {
        false
    }
}

// Each daemon passes the gate once: their numbers are 1 to 5.
fn assert_passes<R: Threads + Sync + Abort, T: PrefixTree>(
    rt: &R,
    alloc: Global,
    plan: &Plan,
    stream: u8,
    wave: u8,
)
    requires { HasWave plan.now stream wave }
{
    let gate = CountingGate {
        passes: AtomicU64::new(0),
        nodes: AtomicU64::new(0),
    };
    let merge = WideMerge {
        alloc,
        plan,
        gate: &gate,
        stream,
        wave,
    };
    let all: Contribution<T> = wide_tree(rt, &merge, 3).expect(rt, "memory");
    assert_rows(rt, alloc, &all);
    assert!(rt; gate.passes.load(Ordering::SeqCst) == 5);
    assert!(rt; gate.nodes.load(Ordering::SeqCst) == 15);
}

// The same in one go.
fn assert_direct<T: PrefixTree>(rt: &impl Abort, alloc: Global, plan: &Plan, stream: u8, wave: u8)
    requires { HasWave plan.now stream wave }
{
    let all: Contribution<T> = direct(alloc, plan, stream, wave).expect(rt, "memory");
    assert_rows(rt, alloc, &all);
    let found = classes(alloc, all.tree()).expect(rt, "memory");
    assert_classes(rt, alloc, &found.all, CLASSES);
}

// A wave in all these ways.
fn assert_ways<R: Threads + Sync + Abort>(rt: &R, alloc: Global, plan: &Plan, stream: u8, wave: u8)
    requires { HasWave plan.now stream wave }
{
    assert_direct::<ArenaTree>(rt, alloc, plan, stream, wave);
    assert_passes::<R, ArenaTree>(rt, alloc, plan, stream, wave);
    let merge = WideMerge {
        alloc,
        plan,
        gate: &OpenGate,
        stream,
        wave,
    };
    assert_wave::<R, ArenaTree>(rt, &merge, 1);
    assert_wave::<R, ArenaTree>(rt, &merge, 2);
    assert_wave::<R, ArenaTree>(rt, &merge, 3);
    assert_wave::<R, ArenaTree>(rt, &merge, 5);
    assert_wave::<R, ArenaTree>(rt, &merge, 8);
    assert_wave::<R, ArenaTree>(rt, &merge, 32);
}

// Each wave of a stream.
fn assert_waves<R: Threads + Sync + Abort>(rt: &R, alloc: Global, plan: &Plan, stream: &StreamDef)
    requires { (w : ℕ) → w < stream.now.waves → HasWave plan.now stream.now.number w }
{
    for wave in 0..stream.waves() {
        assert_ways(rt, alloc, plan, stream.number(), wave);
    }
}

#[test]
fn trees_and_classes_of_several_workers_are_those_of_one(rt: HostRuntime) {
    let alloc = rt.alloc();
    let plan = plan_of(&rt, alloc, NODES, SAMPLES, SCRIPT);
    for stream in plan.streams() {
        assert_waves(&rt, alloc, &plan, stream);
    }
}

#[test]
fn has_a_law() {
    lists_of_classes();
}

fn class_of(rt: &impl Abort, alloc: Global, rank: u32, path: u32) -> Class {
    let mut ranks = RankSet::new(alloc);
    ranks.insert(rank).expect(rt, "a rank");
    let mut paths = Vec::new(alloc);
    paths.push(path).expect(rt, "memory");
    Class { ranks, paths }
}

#[test]
fn unites_classes_of_the_same_paths(rt: HostRuntime) {
    let alloc = rt.alloc();
    let mut one = Vec::new(alloc);
    one.push(class_of(&rt, alloc, 0, 0)).expect(&rt, "memory");
    one.push(class_of(&rt, alloc, 1, 1)).expect(&rt, "memory");
    let mut other = Vec::new(alloc);
    other.push(class_of(&rt, alloc, 2, 0)).expect(&rt, "memory");
    let all = unite(one, other).expect(&rt, "memory");
    assert_classes(&rt, alloc, &all, b"2:[0,2] 0\n1:[1] 1\n");
}
