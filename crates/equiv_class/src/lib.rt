//! Classes: the groups of ranks that were seen in just the same call paths. A debugger is attached to one rank of each.
//!
//! [`classes`] reads the rows of a tree once, and costs what the rows' sets list. Its two steps are [`seen_paths`] and
//! [`classes_of_seen`], so that the paths can be had before the classes, and the classes of some of the ranks alone.
//!
//! ```text
//! // ranks 0 and 2 were seen in main;recv, and rank 1 in main;send
//! let found = classes(alloc, &tree)?;
//! found.seen    // main;recv with 0 and 2, main;send with 1
//! found.all     // the class of 0 and 2 with path 0, and the class of 1 with path 1
//! ```
//!
//! The classes are found by refinement: all covered ranks begin in one state, and each path that ranks were seen in
//! parts these from the others of their state. A contract sees the classes as those of the pairs and the coverage that
//! the tree is of: `classes_of` in `specs/Classes.antt`, which says when two ranks are equivalent. `specs/Rows.antt`
//! has examples.
#![tactic(auto)]

ghost use Rattle.std.specs.Prelude.{◌≡◌, ◌++◌, ◌<◌, ℕ, true, false, List, [], IfOk, OnOk, length, map};
ghost use Rattle.rank_set.specs.Ranks.{IsSubset, Ranks, has};
ghost use Rattle.std.specs.List.{AllByRecursion, list_any};
ghost use Rattle.std.specs.List.Sorted.{IsStrictlySortedBy};
ghost use Rattle.call_path.specs.Path.{Path, is_path, path_cmp};
ghost use Rattle.call_path.specs.Pairs.{HasNoEmptyPath, Pairs, is_pair};
ghost use Rattle.prefix_tree.specs.Tree.{Tree, tree_of, pairs_of};
ghost use Rattle.equiv_class.specs.Classes.{HaveOwnPaths, equivalent, classes_of, classes_with, paths_of};
ghost use Rattle.equiv_class.specs.ClassList.{AreSeenIn, HaveIndices, class_views, classes_over, classes_view, path_of};
ghost use Rattle.equiv_class.specs.SeenPaths.{entries_view, seen_in};
ghost use Rattle.equiv_class.specs.Origins.{origin_of, path_at, paths_before};
ghost use Rattle.equiv_class.specs.StateBlocks.{HasStates, blocks_view};

use call_path::{CallPath, PathBuilder};
use prefix_tree::PrefixTree;
use rank_blocks::{Block, Blocks, find_blocks};
use rank_set::RankSet;
use states::{Origin, count_paths};
use std::alloc::{AllocError, Global};

mod rank_blocks;
mod states;

/// A path in which some rank was seen, with the ranks that were seen in it.
#[derive(Drop)]
pub struct SeenPath<'a> {
    pub path: CallPath,
    /// At least one rank.
    pub ranks: &'a RankSet,
}

/// Ranks that were seen in just the same paths.
#[derive(Drop)]
pub struct Class {
    /// At least one rank.
    pub ranks: RankSet,
    /// The indices of those paths in the list of all seen paths, in ascending order. None for ranks that were seen
    /// in no path.
    pub paths: Vec<u32>,
}

/// The classes of a tree's ranks. Each path stands here once, however many classes have it.
#[derive(Drop)]
pub struct TreeClasses<'a> {
    /// The paths in their order: frame by frame in byte order, a prefix first.
    pub seen: Vec<SeenPath<'a>>,
    /// The classes, by their least ranks.
    pub all: Vec<Class>,
}

/// A law of classes: two ranks are equivalent exactly where they were seen in the same paths.
pub fn equivalent_by_paths()
    ensures same { (P : Pairs) (r s : ℕ) → ((p : Path) → is_pair P r p ≡ is_pair P s p) → equivalent P r s ≡ true }
    ensures equivalent { (P : Pairs) (r s : ℕ) → equivalent P r s ≡ true → (p : Path) → is_pair P r p ≡ is_pair P s p }
{}

/// A law of classes: each covered rank stands in just one of them, and no other rank in any.
pub fn classes_part_ranks()
    ensures covered { (P : Pairs) (C : Ranks) (r : ℕ) → has C r ≡ true → classes_with r (classes_of P C) ≡ 1 }
    ensures others { (P : Pairs) (C : Ranks) (r : ℕ) → has C r ≡ false → classes_with r (classes_of P C) ≡ 0 }
{}

/// A law of classes: the paths of a class are those that each of its ranks was seen in, in order, each once.
pub fn paths_of_classes()
    ensures own { (P : Pairs) (C : Ranks) → HaveOwnPaths P (classes_of P C) }
    ensures members { (P : Pairs) (r : ℕ) (p : Path) → list_any (is_path p) (paths_of P r) ≡ is_pair P r p }
    ensures order { (P : Pairs) (r : ℕ) → IsStrictlySortedBy path_cmp (paths_of P r) }
{}

/// The classes of a tree's covered ranks, by their least ranks. Covered ranks that were seen in no path
/// are a class too.
///
/// `own` says it of the pairs that the tree's rows give, and `pairs` of any pairs that the tree is of. `seen` says
/// which paths there are, and with which ranks.
pub fn classes<'a, T: PrefixTree>(alloc: Global, tree: &'a T) -> Result<TreeClasses<'a>, AllocError>
    ensures own { IfOk result
        (λ found. classes_view found ≡ classes_of (pairs_of (T.tree tree.now)) (T.tree tree.now).coverage) }
    ensures pairs { IfOk result
        (λ found. (P : Pairs) (C : Ranks) → HasNoEmptyPath P → T.tree tree.now ≡ tree_of P C
        → classes_view found ≡ classes_of P C) }
    ensures seen { IfOk result (λ found. entries_view found.seen.items ≡ seen_in (T.tree tree.now)) }
    ensures indices { IfOk result (λ found. HaveIndices (length found.seen.items) found.all.items) }
{
    let seen = seen_paths(alloc, tree)?;
    let all = classes_of_seen(alloc, &seen, tree.row(0).label)?;
    Ok(TreeClasses { seen, all })
}

/// The paths of a tree in which ranks were seen, in order.
pub fn seen_paths<'a, T: PrefixTree>(
    alloc: Global,
    tree: &'a T,
) -> Result<Vec<SeenPath<'a>>, AllocError>
    ensures { IfOk result (λ seen. entries_view seen.items ≡ seen_in (T.tree tree.now)) }
{
    let mut frames = PathBuilder::new(alloc);
    let mut seen = Vec::new(alloc);
    let mut at = tree.cursor(alloc)?;
    while let Some(row) = tree.next_row(&mut at) {
        frames.cut(row.depth - 1);
        frames.push(row.frame)?;
        if !row.ends.is_empty() {
            let path = frames.path()?;
            seen.push(SeenPath {
                path,
                ranks: row.ends,
            })?;
        }
    }
    Ok(seen)
}

/// The classes of covered ranks, all or some, by the paths of their tree in which ranks were seen. It reads no tree:
/// another thread may do it while this one writes the tree.
///
/// `own` says it of the pairs that the tree's rows give, and `pairs` of any pairs that the tree is of.
pub fn classes_of_seen(
    alloc: Global,
    seen: &[SeenPath<'_>],
    covered: &RankSet,
) -> Result<Vec<Class>, AllocError>
    ensures own { IfOk result
        (λ all. (t : Tree) → entries_view seen.now ≡ seen_in t
        → classes_over seen.now all.items ≡ classes_of (pairs_of t) covered.now) }
    ensures pairs { IfOk result
        (λ all. (P : Pairs) (C : Ranks) → AreSeenIn P C seen.now → IsSubset covered.now C
        → classes_over seen.now all.items ≡ classes_of P covered.now) }
    ensures indices { IfOk result (λ all. HaveIndices (length seen.now) all.items) }
{
    let count = count_paths(seen)?;
    let blocks = find_blocks(alloc, seen, count, covered)?;
    take_classes(alloc, count, blocks)
}

// The classes of the blocks, in their order, where so many paths were seen.
fn take_classes(alloc: Global, count: u32, found: Blocks) -> Result<Vec<Class>, AllocError>
    requires { HasStates found }
    ensures view { IfOk result
        (λ all. (es : List (Path × Ranks)) → length es ≡ count → class_views es all.items ≡ blocks_view es found) }
    ensures indices { IfOk result (λ all. HaveIndices count all.items) }
{
    let Blocks {
        origins,
        all: blocks,
    } = found;
    let mut all = Vec::new(alloc);
    for block in blocks {
        let Block { state, ranks } = block;
        let paths = state_paths(alloc, count, &origins, state)?;
        all.push(Class { ranks, paths })?;
    }
    Ok(all)
}

// The indices of the paths that led to a state, found from the last one back.
fn state_paths(
    alloc: Global,
    count: u32,
    origins: &[Origin],
    state: u32,
) -> Result<Vec<u32>, AllocError>
    requires known { state < length origins.now }
    requires backward { (k : ℕ) → 0 < k → (origin_of origins.now k).from < k }
    ensures paths { IfOk result (λ paths. (es : List (Path × Ranks)) → length es ≡ count
        → map (path_of es) paths.items ≡ paths_before es origins.now state) }
    ensures indices { IfOk result (λ paths. AllByRecursion (λ i. i < count) paths.items) }
{
    let mut paths = Vec::new(alloc);
    let mut at = state;
    while at > 0 {
        let origin = origins[at as usize];
        add_path(&mut paths, count, origin.path)?;
        at = origin.from;
    }
    paths.as_mut_slice().reverse();
    Ok(paths)
}

// Appends the index of a path, if it is one of so many.
fn add_path(paths: &mut Vec<u32>, count: u32, path: u32) -> Result<(), AllocError>
    ensures paths { OnOk result ((es : List (Path × Ranks)) → length es ≡ count
        → map (path_of es) paths.new.items ≡ map (path_of es) paths.old.items ++ path_at es path) }
    ensures indices { OnOk result
        (AllByRecursion (λ i. i < count) paths.old.items → AllByRecursion (λ i. i < count) paths.new.items) }
{
    if path < count {
        paths.push(path)?;
    }
    Ok(())
}
