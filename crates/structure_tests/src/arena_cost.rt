//! Paths that are added in their order: each starts where the one before was found, so the cost of all is linear.

use crate::sets::set_of;
use crate::trees::add_path;
use arena_tree::ArenaTree;
use call_path::CallPath;
use prefix_tree::PrefixTree;
use rank_set::RankSet;
use std::alloc::Global;
use std::process::Abort;

fn add<T: PrefixTree>(rt: &impl Abort, alloc: Global, tree: &mut T, ranks: &RankSet, text: &str) {
    let path = CallPath::read(alloc, text).expect(rt, "good");
    add_path(rt, tree, ranks, &path).expect(rt, "a path");
}

fn covered<T: PrefixTree>(rt: &impl Abort, alloc: Global, ranks: &RankSet) -> T {
    let mut tree = T::empty(alloc);
    tree.cover(ranks).expect(rt, "memory");
    tree
}

// A tree of 2,000 siblings below `main`.
fn wide<T: PrefixTree>(rt: &impl Abort, alloc: Global) -> T {
    let ranks = set_of(rt, alloc, &[1]);
    let mut tree = covered(rt, alloc, &ranks);
    for i in 0..2_000u32 {
        let text = format!(in alloc; "main;f{i:04}").expect(rt, "memory");
        add(rt, alloc, &mut tree, &ranks, &text);
    }
    tree
}

fn assert_wide<T: PrefixTree>(rt: &impl Abort, alloc: Global) {
    let tree = wide::<T>(rt, alloc);
    assert!(rt; tree.rows() == 2_002);
    assert!(rt; tree.row(2_001).frame == "f1999");
}

// 100 such trees: a search from the first sibling on would take 15 billion instructions.
#[test]
fn adds_siblings_in_order(rt: HostRuntime) {
    for _ in 0..100 {
        assert_wide::<ArenaTree>(&rt, rt.alloc());
    }
}

// The frames of all rows, one after another.
fn frames<T: PrefixTree>(rt: &impl Abort, alloc: Global, tree: &T) -> String {
    let mut text = String::new(alloc);
    for i in 0..tree.rows() {
        text.push_str(tree.row(i).frame).expect(rt, "memory");
    }
    text
}

const OUT_OF_ORDER: [&str; 9] = [
    "m;b;x", "m;b;z", "m;d", "m;a", "m;b;y", "c", "m;c", "m;b;y;w", "m;b",
];

fn assert_order<T: PrefixTree>(rt: &impl Abort, alloc: Global) {
    let ranks = set_of(rt, alloc, &[1]);
    let mut tree = covered::<T>(rt, alloc, &ranks);
    for text in &OUT_OF_ORDER {
        add(rt, alloc, &mut tree, &ranks, text);
    }
    let text = frames(rt, alloc, &tree);
    assert!(rt; text.as_str() == "/cmabxywzcd");
}

// What is found doesn't depend on where the path before was.
#[test]
fn adds_paths_out_of_order(rt: HostRuntime) {
    assert_order::<ArenaTree>(&rt, rt.alloc());
}
