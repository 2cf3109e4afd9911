//! The ranks that each node expects of a stream.

ghost use Rattle.std.specs.Prelude.{◌≡◌, ◌<◌, ℕ, IfOk, OnOk, [], ◌∷◌, length, map};
ghost use Rattle.rank_set.specs.Ranks.{none};
ghost use Rattle.overlay_setup.specs.NodeSets.{In, up_to};
ghost use Rattle.stat_plan.specs.Files.{DoFit, plan_in};
ghost use Rattle.stat_plan.specs.Plans.{nodes};
ghost use Rattle.stat_plan.specs.Tables.{AreExpected, GainRanks};
ghost use Rattle.overlay_setup.specs.Tables.{rows_view, ancestors_table};

use crate::files::Files;
use rank_set::RankSet;
use std::alloc::{AllocError, Global};

// Adds ranks to the set of a node and to those of its ancestors.
fn add_upwards(
    sets: &mut [RankSet],
    node: u32,
    above: &[u32],
    more: &RankSet,
) -> Result<(), AllocError>
    requires { (n : ℕ) → In n (node ∷ above.now) → n < length sets.old }
    ensures { OnOk result (GainRanks sets.old sets.new (node ∷ above.now) more.now) }
{
    sets[node as usize].union_into(more)?;
    for n in above {
        sets[*n as usize].union_into(more)?;
    }
    Ok(())
}

/// `n` empty sets.
pub fn empty_sets(alloc: Global, n: usize) -> Result<Vec<RankSet>, AllocError>
    ensures { IfOk result (λ sets. sets.items ≡ map (λ _. none) (up_to n)) }
{
    let mut sets = Vec::new(alloc);
    for _ in 0..n {
        sets.push(RankSet::new(alloc))?;
    }
    Ok(sets)
}

/// By node number, the ranks of those of some daemons that are the node or its descendants, where `above` has each
/// node's ancestors.
pub fn expected_sets(
    alloc: Global,
    files: Files<'_>,
    above: &[Vec<u32>],
    daemons: &[u32],
) -> Result<Vec<RankSet>, AllocError>
    requires files { DoFit files }
    requires above { rows_view above.now ≡ ancestors_table files.topology.now.parents }
    requires daemons { (d : ℕ) → In d daemons.now → d < nodes (plan_in files) }
    ensures { IfOk result (λ sets. AreExpected (plan_in files.entry) daemons.now sets.items) }
{
    files.invariant();
    let placed = files.samples.placed();
    let mut sets = empty_sets(alloc, files.topology.nodes() as usize)?;
    for d in daemons {
        let row = &above[*d as usize];
        add_upwards(&mut sets, *d, row.as_slice(), &placed[*d as usize])?;
    }
    Ok(sets)
}
