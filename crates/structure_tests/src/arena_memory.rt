//! Each change of a tree, where any one allocation may be refused: either the change is whole, or the tree is as it
//! was. `tools/check-memory` runs these tests once for each of their allocations.
use crate::trees::{add, cover, of_paths, rows_text};
use arena_tree::ArenaTree;
use prefix_tree::{OwnedTree, PrefixTree, TreeError};
use std::alloc::Global;
use std::process::Abort;

// Two ranks far from each other, so that a set of them takes memory.
const RANKS: [u32; 2] = [0, 900];

const OTHER_RANKS: [u32; 2] = [200, 900];

const OWN: [&str; 3] = ["b;c;d;e", "f", "f;g"];

const OTHER: [&str; 4] = ["a", "b;c", "b;c;d;x", "h;i"];

const MERGED: &[u8] =
    b"0 / 3:[0,200,900] 0:[]\n1 a 2:[200,900] 2:[200,900]\n1 b 3:[0,200,900] 0:[]\n\
    2 c 3:[0,200,900] 2:[200,900]\n3 d 3:[0,200,900] 0:[]\n4 e 2:[0,900] 2:[0,900]\n\
    4 x 2:[200,900] 2:[200,900]\n1 f 2:[0,900] 2:[0,900]\n2 g 2:[0,900] 2:[0,900]\n\
    1 h 2:[200,900] 0:[]\n2 i 2:[200,900] 2:[200,900]\n";

const ADDED: &[u8] =
    b"0 / 2:[0,900] 0:[]\n1 b 2:[0,900] 0:[]\n2 c 2:[0,900] 0:[]\n3 d 2:[0,900] 0:[]\n\
    4 e 2:[0,900] 2:[0,900]\n3 x 2:[0,900] 0:[]\n4 y 2:[0,900] 2:[0,900]\n\
    1 f 2:[0,900] 2:[0,900]\n2 g 2:[0,900] 2:[0,900]\n";

const COVERED: &[u8] = b"0 / 3:[0,400,900] 0:[]\n1 b 2:[0,900] 0:[]\n2 c 2:[0,900] 0:[]\n\
    3 d 2:[0,900] 0:[]\n4 e 2:[0,900] 2:[0,900]\n1 f 2:[0,900] 2:[0,900]\n\
    2 g 2:[0,900] 2:[0,900]\n";

// The rows after a change: those from before where it was refused, and else the others.
fn wanted<'a>(is_refused: bool, before: &'a [u8], changed: &'a [u8]) -> &'a [u8] {
    if is_refused { before } else { changed }
}

fn assert_text<T: PrefixTree>(
    rt: &impl Abort,
    alloc: Global,
    tree: &T,
    want: &[u8],
) -> Result<(), TreeError> {
    let text = rows_text(alloc, tree)?;
    assert!(rt; text.as_slice() == want);
    Ok(())
}

fn merge<T: PrefixTree>(
    rt: &impl Abort,
    alloc: Global,
    tree: &mut T,
    other: &T,
) -> Result<(), TreeError> {
    let before = rows_text(alloc, tree)?;
    let is_refused = tree.merge(other).is_err();
    assert_text(rt, alloc, tree, wanted(is_refused, &before, MERGED))
}

fn merges<T: PrefixTree>(rt: &impl Abort, alloc: Global) -> Result<(), TreeError> {
    let mut tree = of_paths::<T>(rt, alloc, &RANKS, &OWN)?;
    let other = of_paths::<T>(rt, alloc, &OTHER_RANKS, &OTHER)?;
    merge(rt, alloc, &mut tree, &other)
}

// A tree of as many siblings as a chunk of an arena has nodes, so that a node more takes memory.
fn of_siblings<T: PrefixTree>(rt: &impl Abort, alloc: Global) -> Result<T, TreeError> {
    let mut tree = T::empty(alloc);
    cover(alloc, &mut tree, &RANKS)?;
    for i in 0..64u32 {
        let text = format!(in alloc; "m{i}")?;
        add(rt, alloc, &mut tree, &RANKS, &text)?;
    }
    Ok(tree)
}

fn grow<T: PrefixTree>(
    rt: &impl Abort,
    alloc: Global,
    tree: &mut T,
    other: &T,
) -> Result<(), TreeError> {
    let before = rows_text(alloc, tree)?;
    if tree.merge(other).is_err() {
        return assert_text(rt, alloc, tree, &before);
    }
    assert!(rt; tree.rows() == 72);
    Ok(())
}

fn grows<T: PrefixTree>(rt: &impl Abort, alloc: Global) -> Result<(), TreeError> {
    let mut tree = of_siblings::<T>(rt, alloc)?;
    let other = of_paths::<T>(rt, alloc, &OTHER_RANKS, &OTHER)?;
    grow(rt, alloc, &mut tree, &other)
}

fn adds<T: PrefixTree>(rt: &impl Abort, alloc: Global) -> Result<(), TreeError> {
    let mut tree = of_paths::<T>(rt, alloc, &RANKS, &OWN)?;
    let before = rows_text(alloc, &tree)?;
    let is_refused = add(rt, alloc, &mut tree, &RANKS, "b;c;x;y").is_err();
    assert_text(rt, alloc, &tree, wanted(is_refused, &before, ADDED))
}

fn covers<T: PrefixTree>(rt: &impl Abort, alloc: Global) -> Result<(), TreeError> {
    let mut tree = of_paths::<T>(rt, alloc, &RANKS, &OWN)?;
    let before = rows_text(alloc, &tree)?;
    let is_refused = cover(alloc, &mut tree, &[400, 900]).is_err();
    assert_text(rt, alloc, &tree, wanted(is_refused, &before, COVERED))
}

// Where memory is refused before or after the change, there is nothing to compare.
fn assert_no_fault(rt: &impl Abort, outcome: Result<(), TreeError>) {
    assert!(rt; outcome != Err(TreeError::TooManyPrefixes));
}

#[test]
fn refused_merge_of_owned(rt: HostRuntime) {
    assert_no_fault(&rt, merges::<OwnedTree>(&rt, rt.alloc()));
}

#[test]
fn refused_merge_of_arena(rt: HostRuntime) {
    assert_no_fault(&rt, merges::<ArenaTree>(&rt, rt.alloc()));
}

#[test]
fn refused_growth_of_owned(rt: HostRuntime) {
    assert_no_fault(&rt, grows::<OwnedTree>(&rt, rt.alloc()));
}

#[test]
fn refused_growth_of_arena(rt: HostRuntime) {
    assert_no_fault(&rt, grows::<ArenaTree>(&rt, rt.alloc()));
}

#[test]
fn refused_add_of_owned(rt: HostRuntime) {
    assert_no_fault(&rt, adds::<OwnedTree>(&rt, rt.alloc()));
}

#[test]
fn refused_add_of_arena(rt: HostRuntime) {
    assert_no_fault(&rt, adds::<ArenaTree>(&rt, rt.alloc()));
}

#[test]
fn refused_cover_of_owned(rt: HostRuntime) {
    assert_no_fault(&rt, covers::<OwnedTree>(&rt, rt.alloc()));
}

#[test]
fn refused_cover_of_arena(rt: HostRuntime) {
    assert_no_fault(&rt, covers::<ArenaTree>(&rt, rt.alloc()));
}
