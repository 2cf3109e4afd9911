//! The runs of a cover with the places of their ranks.

ghost use Rattle.std.specs.Prelude.{◌≡◌, ℕ, ◌≤◌, ◌+◌, true, length, map, IfOk};
ghost use Rattle.rank_set.specs.Runs.{AreRuns};
ghost use Rattle.rank_places.specs.Table.{placed_from, ArePlaced, cover_of, inside, source, IsFound, AreMoved, IsShift};

use rank_set::Run;
use std::alloc::{AllocError, Global};

/// A run of a cover, and the place of its first rank.
#[derive(Clone, Copy)]
pub(crate) struct PlacedRun {
    pub(crate) first: u32,
    pub(crate) last: u32,
    pub(crate) place: u32,
}

/// Neighbouring numbers, those of one run, and the number that the first of them becomes.
#[derive(Clone, Copy)]
pub(crate) struct Shift {
    // The index of the run.
    pub(crate) at: usize,
    pub(crate) first: u32,
    pub(crate) last: u32,
    pub(crate) target: u32,
}

/// The runs, each with the place of its first rank.
pub(crate) fn placed_runs(alloc: Global, runs: &[Run]) -> Result<Vec<PlacedRun>, AllocError>
    requires { AreRuns 0 (map (λ run. (run.first, run.last)) runs.now) }
    ensures { IfOk result (λ table. table.items ≡ placed_from 0 runs.now) }
{
    let mut table = Vec::with_capacity(alloc, runs.len())?;
    let mut place = 0;
    for run in runs {
        table.push(PlacedRun {
            first: run.first,
            last: run.last,
            place,
        })?;
        place += run.last - run.first + 1;
    }
    Ok(table)
}

// The first of the numbers of a run that become others: with `back` its places.
fn source(run: &PlacedRun, back: bool) -> u32
    ensures { result ≡ source back run.now }
{
    if back { run.place } else { run.first }
}

/// The index of the run in which a number is, with `back` by its places. A run that is not past it helps as a hint: the
/// steps are as many as the distance has binary digits.
pub(crate) fn find(runs: &[PlacedRun], back: bool, hint: usize, number: u32) -> usize
    requires placed { ArePlaced 0 0 runs.now }
    requires inside { inside back (cover_of runs.now) number ≡ true }
    ensures { IsFound back runs.now number result }
{
    let mut low = 0;
    if hint < runs.len() && source(&runs[hint], back) <= number {
        low = hint;
    }
    let mut high = runs.len();
    let mut step = 1;
    while high - low > 1 {
        let ahead = step.min((high - low) / 2);
        if source(&runs[low + ahead], back) <= number {
            low += ahead;
            step = 2 * ahead;
        } else {
            high = low + ahead;
        }
    }
    low
}

/// What becomes of the run in which a number was found.
pub(crate) fn shift_at(runs: &[PlacedRun], back: bool, at: usize, number: u32) -> Shift
    requires placed { ArePlaced 0 0 runs.now }
    requires inside { inside back (cover_of runs.now) number ≡ true }
    requires found { IsFound back runs.now number at }
    ensures shift { IsShift back (cover_of runs.now) number result.first result.last result.target }
    ensures last { at + 1 ≡ length runs.now → (x : ℕ) → number ≤ x → inside back (cover_of runs.now) x ≡ true
        → x ≤ result.last }
{
    let run = runs[at];
    let len = run.last - run.first;
    if back {
        return Shift {
            at,
            first: run.place,
            last: run.place + len,
            target: run.first,
        };
    }
    Shift {
        at,
        first: run.first,
        last: run.last,
        target: run.place,
    }
}

/// What becomes of the run that a number is in, where it was another run before.
pub(crate) fn shift_with(runs: &[PlacedRun], back: bool, before: Shift, number: u32) -> Shift
    requires placed { ArePlaced 0 0 runs.now }
    requires inside { inside back (cover_of runs.now) number ≡ true }
    requires moves { AreMoved back (cover_of runs.now) before.first before.last before.target }
    ensures { IsShift back (cover_of runs.now) number result.first result.last result.target }
{
    if before.first <= number && number <= before.last {
        return before;
    }
    let at = find(runs, back, before.at, number);
    shift_at(runs, back, at, number)
}
