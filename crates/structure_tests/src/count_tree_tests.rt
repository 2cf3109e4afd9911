// Trees against plain loops, and counts whose sum is greater than any of them.
use count_tree::CountTree;
use std::process::Abort;

// Places and the counts that they get, in order. A place may come again.
const SETS: [(u32, u32); 8] = [
    (1, 3),
    (4, 2),
    (0, 1),
    (1, 1),
    (3, 4),
    (4, 0),
    (0, 0),
    (2, 2),
];

// Compares every answer of a tree with the counts, up to the first number that no thing has.
fn assert_counts(rt: &impl Abort, tree: &CountTree, counts: &[u32]) {
    assert!(rt; tree.len() as usize == counts.len());
    let mut i = 0u64;
    for n in 0..tree.len() {
        let count = counts[n as usize];
        assert!(rt; tree.count(n) == count);
        for j in 0..count {
            assert!(rt; tree.find(i) == Some((n, j as u64)));
            i = i.wrapping_add(1);
        }
    }
    assert!(rt; tree.total() == i);
    assert!(rt; tree.find(i).is_none());
}

#[test]
fn finds_as_plain_loops_do(rt: HostRuntime) {
    let mut tree = CountTree::new(rt.alloc(), 5).expect(&rt, "memory");
    let mut counts = [0; 5];
    assert_counts(&rt, &tree, &counts);
    for (place, count) in &SETS {
        assert!(rt; *place < tree.len() && *place < 5);
        tree.set(*place, *count);
        counts[*place as usize] = *count;
        assert_counts(&rt, &tree, &counts);
    }
}

#[test]
fn has_no_place_or_one(rt: HostRuntime) {
    let none = CountTree::new(rt.alloc(), 0).expect(&rt, "memory");
    assert_counts(&rt, &none, &[]);
    let mut tree = CountTree::new(rt.alloc(), 1).expect(&rt, "memory");
    assert_counts(&rt, &tree, &[0]);
    tree.set(0, 3);
    assert_counts(&rt, &tree, &[3]);
}

#[test]
fn takes_the_greatest_counts(rt: HostRuntime) {
    let mut tree = CountTree::new(rt.alloc(), 3).expect(&rt, "memory");
    tree.set(0, u32::MAX);
    tree.set(1, u32::MAX);
    tree.set(2, u32::MAX);
    assert!(rt; tree.total() == 12_884_901_885);
    assert!(rt; tree.find(4_294_967_294) == Some((0, 4_294_967_294)));
    assert!(rt; tree.find(4_294_967_295) == Some((1, 0)));
    assert!(rt; tree.find(12_884_901_884) == Some((2, 4_294_967_294)));
    assert!(rt; tree.find(12_884_901_885).is_none());
}
