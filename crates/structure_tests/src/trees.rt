//! Trees for the tests of this crate, and what is in them as text. Where memory runs out, a tree and a text are an
//! error and no fault, for the tests that have it refused.

ghost use Rattle.std.specs.Prelude.{◌<◌, ◌≤◌, length};
ghost use Rattle.prefix_tree.specs.Chains.{IsGoodChain};

use call_path::CallPath;
use prefix_tree::{Chain, PrefixTree, Row, TreeError};
use rank_set::RankSet;
use std::alloc::{AllocError, Global};
use std::process::Abort;

fn members(alloc: Global, ranks: &[u32]) -> Result<RankSet, TreeError> {
    let mut set = RankSet::new(alloc);
    for rank in ranks {
        if set.insert(*rank).is_err() {
            return Err(TreeError::OutOfMemory);
        }
    }
    Ok(set)
}

pub fn cover<T: PrefixTree>(alloc: Global, tree: &mut T, ranks: &[u32]) -> Result<(), TreeError> {
    let ranks = members(alloc, ranks)?;
    match tree.cover(&ranks) {
        Ok(()) => Ok(()),
        Err(_) => Err(TreeError::OutOfMemory),
    }
}

/// The ranks were seen in the path.
pub fn add_path<T: PrefixTree>(
    rt: &impl Abort,
    tree: &mut T,
    ranks: &RankSet,
    path: &CallPath,
) -> Result<(), TreeError> {
    assert!(rt; ranks.count() > 0);
    assert!(rt; ranks.is_subset(tree.row(0).label));
    tree.add(ranks, path)
}

pub fn add<T: PrefixTree>(
    rt: &impl Abort,
    alloc: Global,
    tree: &mut T,
    ranks: &[u32],
    text: &str,
) -> Result<(), TreeError> {
    let ranks = members(alloc, ranks)?;
    match CallPath::read(alloc, text) {
        Ok(path) => add_path(rt, tree, &ranks, &path),
        Err(_) => Err(TreeError::OutOfMemory),
    }
}

/// A tree of some ranks and the paths that each of them was seen in.
pub fn of_paths<T: PrefixTree>(
    rt: &impl Abort,
    alloc: Global,
    ranks: &[u32],
    texts: &[&str],
) -> Result<T, TreeError> {
    let mut tree = T::empty(alloc);
    cover(alloc, &mut tree, ranks)?;
    for text in texts {
        add(rt, alloc, &mut tree, ranks, text)?;
    }
    Ok(tree)
}

// A row as a line: its depth, its frame, its label and its ends.
fn write_row(alloc: Global, row: &Row<'_>, text: &mut Vec<u8>) -> Result<(), AllocError> {
    let head = format!(in alloc; "{} {} ", row.depth, row.frame)?;
    text.extend_from_slice(head.as_bytes())?;
    row.label.write_text(text)?;
    text.push(b' ')?;
    row.ends.write_text(text)?;
    text.push(b'\n')?;
    Ok(())
}

/// The rows by their numbers.
pub fn rows_text<T: PrefixTree>(alloc: Global, tree: &T) -> Result<Vec<u8>, AllocError> {
    let mut text = Vec::new(alloc);
    for i in 0..tree.rows() {
        write_row(alloc, &tree.row(i), &mut text)?;
    }
    Ok(text)
}

pub fn assert_rows<T: PrefixTree>(rt: &impl Abort, alloc: Global, tree: &T, want: &[u8]) {
    let text = rows_text(alloc, tree).expect(rt, "memory");
    assert!(rt; text.as_slice() == want);
}

// The root, and the rows that a cursor comes to.
fn walk_text<T: PrefixTree>(rt: &impl Abort, alloc: Global, tree: &T) -> Vec<u8> {
    let mut text = Vec::new(alloc);
    write_row(alloc, &tree.row(0), &mut text).expect(rt, "memory");
    let mut at = tree.cursor(alloc).expect(rt, "memory");
    while let Some(row) = tree.next_row(&mut at) {
        write_row(alloc, &row, &mut text).expect(rt, "memory");
    }
    assert!(rt; at.row == tree.rows());
    assert!(rt; tree.next_row(&mut at).is_none());
    text
}

// Row `i` of the frames of a chain; `no_ranks` is empty.
fn write_chain_row(
    alloc: Global,
    chain: &Chain<'_>,
    i: usize,
    no_ranks: &RankSet,
    text: &mut Vec<u8>,
) -> Result<(), AllocError>
    requires good { IsGoodChain chain.now }
    requires from { chain.now.skip ≤ i }
    requires within { i < length chain.now.frames.now }
{
    let len = chain.frames.len();
    let ends = if i + 1 < len { no_ranks } else { chain.ends };
    let row = Row {
        depth: chain.depth + (i - chain.skip),
        frame: chain.frames.frame(i),
        label: chain.label,
        ends,
    };
    write_row(alloc, &row, text)
}

// The root, and the rows that a cursor comes to by chains.
fn chains_text<T: PrefixTree>(
    rt: &impl Abort,
    alloc: Global,
    tree: &T,
    no_ranks: &RankSet,
) -> Vec<u8> {
    let mut text = Vec::new(alloc);
    write_row(alloc, &tree.row(0), &mut text).expect(rt, "memory");
    let mut at = tree.cursor(alloc).expect(rt, "memory");
    while let Some(chain) = tree.next_chain(&mut at) {
        for i in chain.skip..chain.frames.len() {
            write_chain_row(alloc, &chain, i, no_ranks, &mut text).expect(rt, "memory");
        }
    }
    assert!(rt; at.row == tree.rows());
    assert!(rt; tree.next_chain(&mut at).is_none());
    text
}

pub fn assert_walk<T: PrefixTree>(rt: &impl Abort, alloc: Global, tree: &T, want: &[u8]) {
    let text = walk_text(rt, alloc, tree);
    assert!(rt; text.as_slice() == want);
    let no_ranks = RankSet::new(alloc);
    let text = chains_text(rt, alloc, tree, &no_ranks);
    assert!(rt; text.as_slice() == want);
}
