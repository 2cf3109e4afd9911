//! Classes over two sets of ranks, united.

ghost use Rattle.std.specs.Prelude.{◌≡◌, ◌<◌, [], IfOk, OnOk, length, get_or};
ghost use Rattle.std.specs.Ordering.{nat_cmp};
ghost use Rattle.std.specs.Cmp.Lexicographic.{slice_cmp};
ghost use Rattle.rank_set.specs.Ranks.{in_order};
ghost use Rattle.wide_merge.specs.Joining.{AreUnited, ends_with, index_view, index_views, same_indices, with_block, with_blocks, with_ranks};

use equiv_class::Class;
use rank_set::RankSet;
use std::alloc::{AllocError, Global};
use std::cmp::Ordering;

// The order of classes by the indices of their paths.
fn cmp_paths(one: &Class, other: &Class) -> Ordering
    ensures { result ≡ slice_cmp nat_cmp one.now.paths.items other.now.paths.items }
{
    one.paths.as_slice().cmp(other.paths.as_slice())
}

// The least rank of a class.
fn least_rank(class: &Class) -> u32
    ensures { result ≡ get_or (in_order class.now.ranks) 0 0 }
{
    match class.ranks.first() {
        Some(rank) => rank,
        None => 0,
    }
}

// Whether the last of some classes has the paths of this one.
fn ends_with_paths(all: &[Class], class: &Class) -> bool
    ensures { result ≡ ends_with same_indices (index_views all.now) class.now.paths.items }
{
    match all.last() {
        Some(last) => cmp_paths(last, class).is_eq(),
        None => false,
    }
}

// Adds ranks to the last of some classes.
fn add_ranks(all: &mut Vec<Class>, ranks: &RankSet) -> Result<(), AllocError>
    requires { 0 < length all.old.items }
    ensures { OnOk result (index_views all.new.items ≡ with_ranks (index_views all.old.items) ranks.now) }
{
    let last = all.len() - 1;
    all[last].ranks.union_into(ranks)?;
    Ok(())
}

// Adds a class. Its ranks join those of the last, if that has the same paths.
fn add_class(all: &mut Vec<Class>, class: Class) -> Result<(), AllocError>
    ensures { OnOk result
        (index_views all.new.items ≡ with_block same_indices (index_views all.old.items) (index_view class)) }
{
    if ends_with_paths(all.as_slice(), &class) {
        return add_ranks(all, &class.ranks);
    }
    all.push(class)?;
    Ok(())
}

// Classes of which neighbours with the same paths are one.
fn unite_neighbours(alloc: Global, classes: Vec<Class>) -> Result<Vec<Class>, AllocError>
    ensures { IfOk result
        (λ all. index_views all.items ≡ with_blocks same_indices [] (index_views classes.items)) }
{
    let mut all = Vec::new(alloc);
    for class in classes {
        add_class(&mut all, class)?;
    }
    Ok(all)
}

/// The classes over the ranks of two sets, by the classes over each. The sets may have ranks in common. The classes
/// list their paths by indices in one list of paths in order, each path once.
pub fn unite(one: Vec<Class>, other: Vec<Class>) -> Result<Vec<Class>, AllocError>
    ensures { IfOk result (λ all. AreUnited one.items other.items all.items) }
{
    let mut both = one;
    let mut more = other;
    both.append(&mut more)?;
    both.sort_by(|a, b| cmp_paths(a, b))?;
    let mut all = unite_neighbours(*more.allocator(), both)?;
    all.sort_unstable_by_key(|class| least_rank(class));
    Ok(all)
}
