//! Classes, by parts of the ranks on threads.

ghost use Rattle.std.specs.Prelude.{◌≡◌, List, IfOk, length};
ghost use Rattle.std.specs.Thread.{IsSync};
ghost use Rattle.rank_set.specs.Ranks.{Ranks, union};
ghost use Rattle.call_path.specs.Path.{Path};
ghost use Rattle.call_path.specs.Pairs.{HasNoEmptyPath, Pairs};
ghost use Rattle.prefix_tree.specs.Tree.{pairs_of, tree_of};
ghost use Rattle.equiv_class.specs.Classes.{classes_of};
ghost use Rattle.equiv_class.specs.ClassList.{HaveIndices, classes_view};
ghost use Rattle.equiv_class.specs.SeenPaths.{entries_view, seen_in};
ghost use Rattle.wide_merge.specs.Joining.{AreClassesSeen};

use crate::united::unite;
use equiv_class::{Class, SeenPath, TreeClasses, classes_of_seen, seen_paths};
use prefix_tree::PrefixTree;
use rank_set::RankSet;
use std::alloc::{AllocError, Global};
use std::thread::{Threads, join};

// What several threads read at once to find classes. As a bound it hides references to each path's ranks, of which the
// clause of a closure could say nothing.
trait SharedPaths: Sync {
    // The paths of a tree in which ranks were seen, each with its ranks.
    ghost seen: { Self → List (Path × Ranks) };

    // The classes of some covered ranks.
    fn classes(&self, alloc: Global, ranks: &RankSet) -> Result<Vec<Class>, AllocError>
        ensures { IfOk result (λ all. AreClassesSeen (seen self.now) ranks.now all.items) };
}

// The paths of a tree in which ranks were seen.
#[derive(Drop)]
struct SeenList<'a> {
    paths: Vec<SeenPath<'a>>,
}

impl<'a> SharedPaths for SeenList<'a> {
    ghost seen = { λ s. entries_view s.paths.items };

    fn classes(&self, alloc: Global, ranks: &RankSet) -> Result<Vec<Class>, AllocError> {
        classes_of_seen(alloc, &self.paths, ranks)
    }
}

// Some ranks, cut in two: those below the middle between the least and the greatest, and the others.
fn cut(alloc: Global, ranks: &RankSet) -> Result<(RankSet, RankSet), AllocError>
    ensures { IfOk result (λ r. union r.0 r.1 ≡ ranks.now) }
{
    let first = ranks.first().unwrap_or(0);
    let middle = first / 2 + ranks.end() / 2;
    let mut below = RankSet::new(alloc);
    if middle > 0 {
        match below.insert_run(0, middle - 1) {
            Ok(()) => {}
            Err(_) => return Err(AllocError),
        }
    }
    let low = ranks.intersection(&below)?;
    let high = ranks.difference(&below)?;
    Ok((low, high))
}

// The classes of some covered ranks, by so many threads: while there are several, both halves are found at once.
fn wide_part<R: Threads + Sync, S: SharedPaths>(
    rt: &R,
    alloc: Global,
    seen: &S,
    ranks: &RankSet,
    workers: u32,
) -> Result<Vec<Class>, AllocError>
    ensures { IfOk result (λ all. AreClassesSeen (S.seen seen.now) ranks.now all.items) }
{
    if workers < 2 {
        return seen.classes(alloc, ranks);
    }
    let (low, high) = cut(alloc, ranks)?;
    let fewer = workers / 2;
    let more = workers - fewer;
    let (one, other) = join(
        rt,
        move || -> Result<Vec<Class>, AllocError>
            requires { IsSync R.row × IsSync S.row }
            ensures { IfOk result (λ all. AreClassesSeen (S.seen seen.entry.now) low all.items) }
        { wide_part(rt, alloc, seen, &low, fewer) },
        move || -> Result<Vec<Class>, AllocError>
            requires { IsSync R.row × IsSync S.row }
            ensures { IfOk result (λ all. AreClassesSeen (S.seen seen.entry.now) high all.items) }
        { wide_part(rt, alloc, seen, &high, more) },
    );
    let one = one?;
    let other = other?;
    unite(one, other)
}

/// The classes of a tree, by so many threads: the same as those of `equiv_class::classes`.
pub fn wide_classes<'a, R: Threads + Sync, T: PrefixTree>(
    rt: &R,
    alloc: Global,
    tree: &'a T,
    workers: u32,
) -> Result<TreeClasses<'a>, AllocError>
    ensures own { IfOk result
        (λ found. classes_view found ≡ classes_of (pairs_of (T.tree tree.now)) (T.tree tree.now).coverage) }
    ensures pairs { IfOk result
        (λ found. (P : Pairs) (C : Ranks) → HasNoEmptyPath P → T.tree tree.now ≡ tree_of P C
        → classes_view found ≡ classes_of P C) }
    ensures seen { IfOk result (λ found. entries_view found.seen.items ≡ seen_in (T.tree tree.now)) }
    ensures indices { IfOk result (λ found. HaveIndices (length found.seen.items) found.all.items) }
{
    let paths = seen_paths(alloc, tree)?;
    let seen = SeenList { paths };
    let all = wide_part(rt, alloc, &seen, tree.row(0).label, workers)?;
    Ok(TreeClasses {
        seen: seen.paths,
        all,
    })
}
