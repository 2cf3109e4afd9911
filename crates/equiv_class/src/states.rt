//! States of ranks: two ranks have the same state where they were in the same sets so far. The sets are noted one after
//! another, and a set costs what it lists. Each state but the first notes the state that it comes from, and the path
//! that led on from it: so the paths of a rank are found from its state back.

ghost use Rattle.std.specs.Prelude.{◌≡◌, ℕ, ◌<◌, ◌≤◌, ◌-◌, ◌+◌, true, length, get_or, set, nat_eq, All, IsTrue, IfOk, OnOk};
ghost use Rattle.rank_set.specs.Ranks.{has};
ghost use Rattle.equiv_class.specs.SeenPaths.{entries_view};
ghost use Rattle.equiv_class.specs.Origins.{AreOrigins, HaveOrigins, LeadToStates, with_origin};
ghost use Rattle.equiv_class.specs.States.{AreTables, ArePartedBy, AreStates, HasEntries, state_after, with_next};

use crate::SeenPath;
use rank_set::RankSet;
use rank_table::RankTable;
use std::alloc::AllocError;

/// Where a state comes from.
#[derive(Clone, Copy)]
pub(crate) struct Origin {
    // The state before it.
    pub(crate) from: u32,
    // The number of the path that led on from it.
    pub(crate) path: u32,
}

// How many states there are.
pub(crate) fn count_states(next: &[u32]) -> Result<u32, AllocError>
    ensures { IfOk result (λ count. count ≡ length next.now) }
{
    match u32::try_from(next.len()) {
        Ok(count) => Ok(count),
        Err(_) => Err(AllocError),
    }
}

// How many paths were seen. Their numbers are below this one.
pub(crate) fn count_paths(seen: &[SeenPath<'_>]) -> Result<u32, AllocError>
    ensures { IfOk result (λ count. count ≡ length seen.now) }
{
    match u32::try_from(seen.len()) {
        Ok(count) => Ok(count),
        Err(_) => Err(AllocError),
    }
}

// The state after this one along a path: a new one where the table has none from `base` on.
fn next_state(
    next: &mut Vec<u32>,
    origins: &mut Vec<Origin>,
    base: u32,
    state: u32,
    path: u32,
) -> Result<u32, AllocError>
    requires { state < length next.old.items }
    ensures state { IfOk result (λ after. after ≡ state_after base state next.old.items) }
    ensures next { OnOk result (next.new.items ≡ with_next base state next.old.items) }
    ensures origins { OnOk result
        (origins.new.items ≡ with_origin base state path next.old.items origins.old.items) }
{
    let known = next[state as usize];
    if known >= base {
        return Ok(known);
    }
    let made = count_states(next.as_slice())?;
    next[state as usize] = made;
    next.push(0)?;
    origins.push(Origin { from: state, path })?;
    Ok(made)
}

// A number above each covered rank, and each that was seen in a path.
pub(crate) fn end_of_all(seen: &[SeenPath<'_>], covered: &RankSet) -> u32
    ensures covered { (r : ℕ) → has covered.now r ≡ true → r < result }
    ensures seen { All (λ path. (r : ℕ) → has path.ranks.now r ≡ true → r < result) seen.now }
{
    let mut end = covered.end();
    for path in seen {
        end = end.max(path.ranks.end());
    }
    end
}

// Moves the ranks of a set on to new states along a path, those of one state to one state.
fn part(
    ranks: &RankSet,
    path: u32,
    states: &mut RankTable,
    next: &mut Vec<u32>,
    origins: &mut Vec<Origin>,
) -> Result<(), AllocError>
    requires tables { AreTables states.old next.old.items }
    requires origins { AreOrigins next.old.items origins.old.items }
    requires entries { HasEntries states.old ranks.now }
    ensures length { OnOk result (length states.new ≡ length states.old) }
    ensures tables { OnOk result (AreTables states.new next.new.items) }
    ensures origins { OnOk result (AreOrigins next.new.items origins.new.items) }
    ensures parted { OnOk result (ArePartedBy ranks.now states.old states.new) }
    ensures moved { OnOk result ((r : ℕ) → has ranks.now r ≡ true → length next.old.items ≤ get_or states.new r 0) }
    ensures noted { OnOk result
        (HaveOrigins ranks.now path states.old origins.old.items states.new origins.new.items) }
{
    let base = count_states(next.as_slice())?;
    let mut from = 0;
    let mut hint = 0;
    while let Some(run) = ranks.next_run_near(from, &mut hint) {
        from = run.first;
        while from <= run.last {
            let own = states.run_at(from, run.last + 1);
            let state = next_state(next, origins, base, own.number, path)?;
            states.set_run(from, own.end, state)?;
            from = own.end;
        }
    }
    Ok(())
}

// Parts the ranks by the paths that they were seen in, of which there are `count`.
pub(crate) fn part_by_paths(
    seen: &[SeenPath<'_>],
    count: u32,
    states: &mut RankTable,
    next: &mut Vec<u32>,
    origins: &mut Vec<Origin>,
) -> Result<(), AllocError>
    requires count { count ≡ length seen.now }
    requires tables { AreTables states.old next.old.items }
    requires origins { AreOrigins next.old.items origins.old.items }
    requires entries { All (λ path. HasEntries states.old path.ranks.now) seen.now }
    requires start { (r : ℕ) → get_or states.old r 0 ≡ 0 }
    ensures length { OnOk result (length states.new ≡ length states.old) }
    ensures tables { OnOk result (AreTables states.new next.new.items) }
    ensures origins { OnOk result (AreOrigins next.new.items origins.new.items) }
    ensures states { OnOk result (AreStates states.new (entries_view seen.now)) }
    ensures paths { OnOk result (LeadToStates (entries_view seen.now) states.new origins.new.items) }
{
    for i in 0..count {
        part(seen[i as usize].ranks, i, states, next, origins)?;
    }
    Ok(())
}
