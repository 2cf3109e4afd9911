use crate::trees::{add, assert_rows, assert_walk, cover, of_paths, rows_text};
use prefix_tree::{OwnedTree, PrefixTree, TreeError};
use std::alloc::Global;
use std::process::Abort;

// The rows by their numbers and by a cursor.
fn assert_all<T: PrefixTree>(rt: &impl Abort, alloc: Global, tree: &T, want: &[u8]) {
    assert_rows(rt, alloc, tree, want);
    assert_walk(rt, alloc, tree, want);
}

// A tree of two ranks, with a path of each.
fn of_two<T: PrefixTree>(rt: &impl Abort, alloc: Global) -> T {
    let mut tree = of_paths::<T>(rt, alloc, &[0, 1], &[]).expect(rt, "memory");
    assert_all(rt, alloc, &tree, b"0 / 2:[0-1] 0:[]\n");
    add(rt, alloc, &mut tree, &[0], "a;b").expect(rt, "a path");
    add(rt, alloc, &mut tree, &[1], "a").expect(rt, "a path");
    tree
}

fn merges<T: PrefixTree>(rt: &impl Abort, alloc: Global) {
    let mut left = of_two::<T>(rt, alloc);
    let right = of_paths::<T>(rt, alloc, &[1, 2], &["a"]).expect(rt, "memory");
    left.merge(&right).expect(rt, "memory");
    let want = b"0 / 3:[0-2] 0:[]\n1 a 3:[0-2] 2:[1-2]\n2 b 1:[0] 1:[0]\n";
    assert_all(rt, alloc, &left, want);
    assert_all(rt, alloc, &left.copy().expect(rt, "memory"), want);
}

// New rows go before, between and behind the rows that stand, and one stands already.
fn weaves<T: PrefixTree>(rt: &impl Abort, alloc: Global) {
    let mut left = of_paths::<T>(rt, alloc, &[0], &["e", "b", "d"]).expect(rt, "memory");
    let right = of_paths::<T>(rt, alloc, &[1], &["f", "d;x", "c;y;z", "a"]).expect(rt, "memory");
    left.merge(&right).expect(rt, "memory");
    let want = b"0 / 2:[0-1] 0:[]\n1 a 1:[1] 1:[1]\n1 b 1:[0] 1:[0]\n\
        1 c 1:[1] 0:[]\n2 y 1:[1] 0:[]\n3 z 1:[1] 1:[1]\n\
        1 d 2:[0-1] 1:[0]\n2 x 1:[1] 1:[1]\n1 e 1:[0] 1:[0]\n1 f 1:[1] 1:[1]\n";
    assert_all(rt, alloc, &left, want);
}

#[test]
fn merges_and_weaves_owned(rt: HostRuntime) {
    merges::<OwnedTree>(&rt, rt.alloc());
    weaves::<OwnedTree>(&rt, rt.alloc());
}

// A tree with 2,048 rows besides the root, all of them siblings, first or last one first.
fn full<T: PrefixTree>(rt: &impl Abort, alloc: Global, is_falling: bool) -> T {
    let mut tree = T::empty(alloc);
    cover(alloc, &mut tree, &[0, 1]).expect(rt, "memory");
    for i in 0..2_048u32 {
        let number = if is_falling {
            2_047u32.wrapping_sub(i)
        } else {
            i
        };
        let text = format!(in alloc; "f{number:04}").expect(rt, "memory");
        add(rt, alloc, &mut tree, &[1], &text).expect(rt, "a path");
    }
    tree
}

// A tree with a row that a full one hasn't.
fn with_a_row_more<T: PrefixTree>(rt: &impl Abort, alloc: Global) -> T {
    let mut tree = of_paths::<T>(rt, alloc, &[0, 1], &[]).expect(rt, "memory");
    add(rt, alloc, &mut tree, &[0], "f0000;g").expect(rt, "a path");
    tree
}

// A path and a tree that would make a row more are refused, and the rows stay.
fn assert_refuses<T: PrefixTree>(rt: &impl Abort, alloc: Global, tree: &mut T) {
    let before = rows_text(alloc, tree).expect(rt, "memory");
    assert!(rt; add(rt, alloc, tree, &[1], "g") == Err(TreeError::TooManyPrefixes));
    assert_all(rt, alloc, tree, &before);
    let other = with_a_row_more::<T>(rt, alloc);
    assert!(rt; tree.merge(&other) == Err(TreeError::TooManyPrefixes));
    assert_all(rt, alloc, tree, &before);
}

pub fn refuses_when_full<T: PrefixTree>(rt: &impl Abort, alloc: Global, is_falling: bool) {
    let mut tree = full::<T>(rt, alloc, is_falling);
    assert_refuses(rt, alloc, &mut tree);
    add(rt, alloc, &mut tree, &[0], "f0000").expect(rt, "a path that stands");
    assert!(rt; tree.rows() == 2_049);
    assert!(rt; tree.row(1).ends.count() == 2);
}

#[test]
fn refuses_when_full_owned(rt: HostRuntime) {
    refuses_when_full::<OwnedTree>(&rt, rt.alloc(), false);
}
