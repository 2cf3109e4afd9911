//! The least ranks of classes.

ghost use Rattle.std.specs.Prelude.{◌≡◌, ℕ, ◌||◌, List, IfOk, OnOk, take};
ghost use Rattle.std.specs.List.{list_any};
ghost use Rattle.std.specs.Ordering.{nat_cmp, eq_by_cmp};
ghost use Rattle.rank_set.specs.Ranks.{Ranks, has, in_order};
ghost use Rattle.call_path.specs.Path.{Path};
ghost use Rattle.equiv_class.specs.ClassList.{class_views};
ghost use Rattle.tree_view.specs.Views.{least_ranks};

use equiv_class::Class;
use rank_set::RankSet;
use std::alloc::{AllocError, Global};

// Adds the least of some ranks, so many, or all where there are fewer.
fn add_least(all: &mut RankSet, ranks: &RankSet, count: u32) -> Result<(), AllocError>
    ensures { OnOk result
        ((r : ℕ) → has all.new r
        ≡ (has all.old r || list_any (eq_by_cmp nat_cmp r) (take count (in_order ranks.now)))) }
{
    let mut from = 0;
    let mut hint = 0;
    for _ in 0..count {
        let Some(run) = ranks.next_run_near(from, &mut hint) else {
            return Ok(());
        };
        match all.insert(run.first) {
            Ok(()) => {}
            Err(_) => return Err(AllocError),
        }
        from = run.first + 1;
    }
    Ok(())
}

/// The least ranks of each class, so many, or all where it has fewer.
pub(crate) fn least_ranks(
    alloc: Global,
    classes: &[Class],
    count: u32,
) -> Result<RankSet, AllocError>
    ensures { IfOk result
        (λ ranks. (es : List (Path × Ranks)) → ranks ≡ least_ranks count (class_views es classes.now)) }
{
    let mut ranks = RankSet::new(alloc);
    for class in classes {
        add_least(&mut ranks, &class.ranks, count)?;
    }
    Ok(ranks)
}
