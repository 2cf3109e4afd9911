//! The fold that a tree of parts says.

ghost use Rattle.std.specs.Prelude.{◌≡◌, ◌^◌, ◌<◌, ℤ, IfOk};
ghost use Rattle.std.specs.Fmt.{signed_decimal};
ghost use lib.Signed.{mag};
ghost use Rattle.rank_sums.specs.Folds.{result_of, times};
ghost use Rattle.rank_sums.specs.PartTrees.{SaysNumbers, SaysNumbersWithin, tree_total, IsNumberText};

use crate::fold::{Fold, joined, narrowed, of_none, times};
use prefix_tree::PrefixTree;
use std::alloc::{AllocError, Global};

// What the number of a frame counts for, as often as there are ranks.
fn row_value(fold: Fold, frame: &str, count: u32) -> Option<i128>
    requires { IsNumberText frame.now }
    ensures { (z : ℤ) → mag z < 2 ^ 63 → frame.now ≡ signed_decimal z → result ≡ times fold z count }
{
    match frame.parse::<i64>() {
        Ok(number) => times(fold, number, count),
        Err(_) => unreachable!(),
    }
}

// What the rows of a tree count for.
fn rows_value<T: PrefixTree>(
    alloc: Global,
    fold: Fold,
    tree: &T,
) -> Result<Option<i128>, AllocError>
    requires { SaysNumbers fold (T.tree tree.now) }
    ensures { IfOk result (λ value. value ≡ tree_total fold (T.tree tree.now)) }
{
    let mut value = None;
    let mut at = tree.cursor(alloc)?;
    while let Some(row) = tree.next_row(&mut at) {
        let part = row_value(fold, row.frame, row.ends.count());
        value = joined(fold, value, part);
    }
    Ok(value)
}

/// The fold that a tree of parts says: over its rows, the number of each, once for each rank that ends there. The
/// trees of a plan of parts say numbers: [`sums_are_exact`](crate::sums_are_exact), `readable`.
pub fn value_of<T: PrefixTree>(
    alloc: Global,
    fold: Fold,
    tree: &T,
) -> Result<Option<i64>, AllocError>
    requires { SaysNumbersWithin fold (T.tree tree.now) }
    ensures { IfOk result (λ value. value ≡ result_of fold (tree_total fold (T.tree tree.now))) }
{
    // for the proof: a set has no more ranks than there can be
    let _covered = tree.row(0).label.count();
    match narrowed(rows_value(alloc, fold, tree)?) {
        Some(value) => Ok(Some(value)),
        None => Ok(of_none(fold)),
    }
}
