// Both trees on the same series of calls, and trees at the limits.
use crate::prefix_tree_tests::refuses_when_full;
use crate::trees::{add, assert_rows, cover, of_paths, rows_text};
use arena_tree::ArenaTree;
use call_path::FRAME_LIMIT;
use prefix_tree::{OwnedTree, PrefixTree};
use std::alloc::{AllocError, Global};
use std::process::Abort;

// A tree of rank 0 and one of rank 1, one merged into the other.
fn merged<T: PrefixTree>(rt: &impl Abort, alloc: Global, own: &[&str], others: &[&str]) -> T {
    let mut tree = of_paths::<T>(rt, alloc, &[0], own).expect(rt, "memory");
    let other = of_paths::<T>(rt, alloc, &[1], others).expect(rt, "memory");
    tree.merge(&other).expect(rt, "memory");
    tree
}

fn assert_merged<T: PrefixTree>(
    rt: &impl Abort,
    alloc: Global,
    own: &[&str],
    others: &[&str],
    want: &[u8],
) {
    let tree = merged::<T>(rt, alloc, own, others);
    assert_rows(rt, alloc, &tree, want);
    let copy = tree.copy().expect(rt, "memory");
    assert_rows(rt, alloc, &copy, want);
}

// The paths of rank 0 and of rank 1, and the rows of both.
struct Merge {
    own: &'static [&'static str],
    others: &'static [&'static str],
    want: &'static [u8],
}

const MERGES: [Merge; 2] = [
    // A run is cut by a path that ends in it, by one that leaves it, and by one that goes on below it.
    Merge {
        own: &["a;b;c;d"],
        others: &["a;b", "a;b;c;x", "a;b;c;d;e"],
        want: b"0 / 2:[0-1] 0:[]\n1 a 2:[0-1] 0:[]\n2 b 2:[0-1] 1:[1]\n3 c 2:[0-1] 0:[]\n\
            4 d 2:[0-1] 1:[0]\n5 e 1:[1] 1:[1]\n4 x 1:[1] 1:[1]\n",
    },
    // New rows go before, between and behind the rows that stand, and one stands already.
    Merge {
        own: &["e", "b", "d"],
        others: &["f", "d;x", "c;y;z", "a"],
        want: b"0 / 2:[0-1] 0:[]\n1 a 1:[1] 1:[1]\n1 b 1:[0] 1:[0]\n\
            1 c 1:[1] 0:[]\n2 y 1:[1] 0:[]\n3 z 1:[1] 1:[1]\n\
            1 d 2:[0-1] 1:[0]\n2 x 1:[1] 1:[1]\n1 e 1:[0] 1:[0]\n1 f 1:[1] 1:[1]\n",
    },
];

#[test]
fn cuts_runs_and_puts_rows_between_siblings(rt: HostRuntime) {
    for merge in &MERGES {
        assert_merged::<ArenaTree>(&rt, rt.alloc(), merge.own, merge.others, merge.want);
    }
}

// A number after another, of no pattern.
fn after(seed: u32) -> u32 {
    seed.wrapping_mul(1_664_525).wrapping_add(1_013_904_223)
}

// A path of one to nine frames that the number picks, few of them different, so that paths share many.
fn picked(alloc: Global, seed: u32) -> Result<String, AllocError> {
    let mut text = format!(in alloc; "f{}", seed / 65_536 % 3)?;
    let mut seed = after(seed);
    for _ in 0..8 {
        if seed / 65_536 % 8 == 0 {
            break;
        }
        text.push_str(&format!(in alloc; ";g{}", seed / 1_048_576 % 9 / 6)?)?;
        seed = after(seed);
    }
    Ok(text)
}

// A path that the number picks.
fn add_picked<T: PrefixTree>(rt: &impl Abort, alloc: Global, tree: &mut T, rank: u32, seed: u32) {
    let text = picked(alloc, seed).expect(rt, "memory");
    add(rt, alloc, tree, &[rank], &text).expect(rt, "a path");
}

// A tree of three ranks from a first one on, covered in two steps, with paths that the number picks.
fn picked_tree<T: PrefixTree>(rt: &impl Abort, alloc: Global, first: u32, seed: u32) -> T {
    let mut tree = T::empty(alloc);
    cover(alloc, &mut tree, &[first]).expect(rt, "memory");
    let others = [first.wrapping_add(1), first.wrapping_add(2)];
    cover(alloc, &mut tree, &others).expect(rt, "memory");
    let mut seed = seed;
    for i in 0..9u32 {
        add_picked(rt, alloc, &mut tree, first.wrapping_add(i % 3), seed);
        seed = after(seed);
    }
    tree
}

// Merges a tree that numbers pick, adds a path and covers a rank.
fn change<T: PrefixTree>(rt: &impl Abort, alloc: Global, tree: &mut T, seed: u32, i: u32) {
    let other = picked_tree::<T>(rt, alloc, 60 * (i % 8), after(seed.wrapping_add(i)));
    tree.merge(&other).expect(rt, "memory");
    add_picked(rt, alloc, tree, 0, seed.wrapping_add(i));
    cover(alloc, tree, &[1_000 * (i % 8)]).expect(rt, "memory");
}

// The rows of a tree after the changes that numbers pick.
fn picked_rows<T: PrefixTree>(rt: &impl Abort, alloc: Global, seed: u32) -> Vec<u8> {
    let mut tree = picked_tree::<T>(rt, alloc, 0, seed);
    for i in 1..5u32 {
        change(rt, alloc, &mut tree, seed, i);
    }
    rows_text(alloc, &tree).expect(rt, "memory")
}

#[test]
fn both_trees_have_the_same_rows(rt: HostRuntime) {
    for seed in 1..10_001u32 {
        let owned = picked_rows::<OwnedTree>(&rt, rt.alloc(), seed);
        let arena = picked_rows::<ArenaTree>(&rt, rt.alloc(), seed);
        assert!(&rt; arena.as_slice() == owned.as_slice(), "of {seed}");
    }
}

#[test]
fn refuses_a_row_more_than_the_limit(rt: HostRuntime) {
    refuses_when_full::<ArenaTree>(&rt, rt.alloc(), true);
}

// Paths of even or of odd numbers, 1,000 of each.
fn siblings<T: PrefixTree>(rt: &impl Abort, alloc: Global, odd: u32) -> T {
    let mut tree = T::empty(alloc);
    cover(alloc, &mut tree, &[odd]).expect(rt, "memory");
    for i in 0..1_000u32 {
        let text = format!(in alloc; "f{:04}", 2 * i + odd % 2).expect(rt, "memory");
        add(rt, alloc, &mut tree, &[odd], &text).expect(rt, "a path");
    }
    tree
}

fn merged_siblings<T: PrefixTree>(rt: &impl Abort, alloc: Global) -> Vec<u8> {
    let mut tree = siblings::<T>(rt, alloc, 0);
    tree.merge(&siblings::<T>(rt, alloc, 1))
        .expect(rt, "memory");
    assert!(rt; tree.rows() == 2_001);
    rows_text(alloc, &tree).expect(rt, "memory")
}

#[test]
fn merges_2000_siblings(rt: HostRuntime) {
    let owned = merged_siblings::<OwnedTree>(&rt, rt.alloc());
    let arena = merged_siblings::<ArenaTree>(&rt, rt.alloc());
    assert!(&rt; arena.as_slice() == owned.as_slice());
}

// The text of a path of the deepest sort, whose frames differ from a given one on.
fn deep_text(alloc: Global, from: usize, mark: &str) -> Result<String, AllocError> {
    let mut text = format!(in alloc; "f")?;
    for i in 1..FRAME_LIMIT {
        text.push_str(if i < from { ";f" } else { mark })?;
    }
    Ok(text)
}

fn deep_tree<T: PrefixTree>(
    rt: &impl Abort,
    alloc: Global,
    rank: u32,
    from: usize,
    mark: &str,
) -> T {
    let text = deep_text(alloc, from, mark).expect(rt, "memory");
    of_paths::<T>(rt, alloc, &[rank], &[&text]).expect(rt, "memory")
}

fn deep_rows<T: PrefixTree>(rt: &impl Abort, alloc: Global) -> Vec<u8> {
    let mut tree = deep_tree::<T>(rt, alloc, 0, 128, ";f");
    for (rank, from, mark) in &[(1, 64, ";e"), (2, 127, ";g")] {
        let other = deep_tree::<T>(rt, alloc, *rank, *from, mark);
        tree.merge(&other).expect(rt, "memory");
    }
    rows_text(alloc, &tree).expect(rt, "memory")
}

#[test]
fn cuts_runs_of_128_frames(rt: HostRuntime) {
    let owned = deep_rows::<OwnedTree>(&rt, rt.alloc());
    let arena = deep_rows::<ArenaTree>(&rt, rt.alloc());
    assert!(&rt; arena.as_slice() == owned.as_slice());
}
