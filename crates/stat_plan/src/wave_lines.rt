//! The lines of a wave that list some ranks: those of a node, for its own tree, and those of all daemons of a stream.

ghost use Rattle.std.specs.Prelude.{◌≡◌, ◌<◌, ◌&&◌, ◌||◌, ◌∷◌, ℕ, IfOk, OnOk, [], length};
ghost use Rattle.std.specs.List.{AllByRecursion};
ghost use Rattle.rank_set.specs.Ranks.{Has, IsSubset, has};
ghost use Rattle.overlay_setup.specs.NodeSets.{In};
ghost use Rattle.stat_plan.specs.OwnLines.{AreLinesOf, AreNodeLines, GainRanksSeen, GainSeen, ranks_at, ranks_of_lines, row_at};
ghost use Rattle.stat_plan.specs.Shown.{held_lines};
ghost use Rattle.overlay_setup.specs.Tables.{rows_view};
ghost use Rattle.stat_plan.specs.Wanted.{AreWantedLines, AreWantedRanks};

use crate::expected::empty_sets;
use crate::parted_lines::{PartedLines, sort_row};
use crate::samples::StackLine;
use overlay_setup::WaveTimes;
use rank_set::RankSet;
use std::alloc::{AllocError, Global};

// The ranks that two sets have in common. Mostly the first has many more.
fn common(ranks: &RankSet, own: &RankSet) -> Result<RankSet, AllocError>
    ensures { IfOk result (λ both. (r : ℕ) → has both r ≡ (has own.now r && has ranks.now r)) }
{
    if ranks.is_subset(own) {
        return ranks.copy();
    }
    own.intersection(ranks)
}

// Adds what a line lists of some ranks, if it is at a time of the wave.
fn add_part(
    lines: &mut Vec<StackLine>,
    line: &StackLine,
    own: &RankSet,
    times: WaveTimes,
) -> Result<(), AllocError>
    ensures { OnOk result
        (GainSeen times.samples times.wave own.now (line.now ∷ []) lines.old.items lines.new.items) }
{
    if !times.contains(line.time) {
        return Ok(());
    }
    let ranks = common(&line.ranks, own)?;
    if ranks.is_empty() {
        return Ok(());
    }
    lines.push(StackLine {
        time: line.time,
        ranks,
        path: line.path,
    })?;
    Ok(())
}

// Adds what lines list of some ranks at the times of the wave.
fn add_parts(
    lines: &mut Vec<StackLine>,
    more: &[StackLine],
    own: &RankSet,
    times: WaveTimes,
) -> Result<(), AllocError>
    ensures { OnOk result
        (GainSeen times.samples times.wave own.now more.now lines.old.items lines.new.items) }
{
    for line in more {
        add_part(lines, line, own, times)?;
    }
    Ok(())
}

// Adds what spread lines list of a node's ranks at the times of the wave. The node has the numbers of these lines.
fn add_spread(
    lines: &mut Vec<StackLine>,
    spread: &[StackLine],
    numbers: &RankSet,
    own: &RankSet,
    times: WaveTimes,
) -> Result<(), AllocError>
    requires { (i r : ℕ) → Has r own.now → Has r (ranks_at (ranks_of_lines spread.now) i) → Has i numbers.now }
    ensures { OnOk result
        (GainSeen times.samples times.wave own.now spread.now lines.old.items lines.new.items) }
{
    let mut from = 0;
    let mut hint = 0;
    while let Some(run) = numbers.next_run_near(from, &mut hint) {
        from = run.last + 1;
        let first = spread.len().min(run.first as usize);
        let end = spread.len().min(from as usize);
        add_parts(lines, &spread[first..end], own, times)?;
    }
    Ok(())
}

// Adds to a set what other ranks have in common with some.
fn add_common(set: &mut RankSet, ranks: &RankSet, own: &RankSet) -> Result<(), AllocError>
    ensures { OnOk result ((r : ℕ) → has set.new r ≡ (has set.old r || (has own.now r && has ranks.now r))) }
{
    if ranks.is_subset(own) {
        return set.union_into(ranks);
    }
    let both = ranks.intersection(own)?;
    set.union_into(&both)
}

// Adds to the set of each path those of some ranks that lines list in it at the times of the wave.
fn gather(
    sets: &mut [RankSet],
    lines: &[StackLine],
    own: &RankSet,
    times: WaveTimes,
) -> Result<(), AllocError>
    requires { AllByRecursion (λ line. line.path < length sets.old) lines.now }
    ensures { OnOk result (GainRanksSeen times.samples times.wave own.now lines.now sets.old sets.new) }
{
    for line in lines {
        if times.contains(line.time) {
            add_common(&mut sets[line.path as usize], &line.ranks, own)?;
        }
    }
    Ok(())
}

/// Which samples are wanted: those of a wave, of the ranks of some daemons.
#[derive(Clone, Copy)]
pub struct Wanted<'a> {
    /// The numbers of the daemons.
    pub daemons: &'a [u32],
    /// The ranks of these daemons.
    pub ranks: &'a RankSet,
    /// The sample times of the wave.
    pub times: WaveTimes,
}

/// By path number, the wanted ranks that lines list in the path at the times of the wave.
pub fn ranks_seen(
    alloc: Global,
    parted: &PartedLines,
    count: usize,
    wanted: Wanted<'_>,
) -> Result<Vec<RankSet>, AllocError>
    requires nodes { (d : ℕ) → In d wanted.daemons.now → d < length parted.now.rows.items }
    requires rows { (d : ℕ) → In d wanted.daemons.now
        → AllByRecursion (λ line. line.path < count) (row_at (rows_view parted.now.rows.items) d) }
    requires spread { AllByRecursion (λ line. line.path < count) parted.now.spread.items }
    ensures length { IfOk result (λ sets. length sets.items ≡ count) }
    ensures seen { IfOk result (λ sets.
        AreWantedRanks wanted.entry (rows_view parted.now.rows.items) parted.now.spread.items sets.items) }
{
    let mut sets = empty_sets(alloc, count)?;
    let rows = parted.rows.as_slice();
    for d in wanted.daemons {
        let row = &rows[*d as usize];
        gather(&mut sets, row.as_slice(), wanted.ranks, wanted.times)?;
    }
    gather(
        &mut sets,
        parted.spread.as_slice(),
        wanted.ranks,
        wanted.times,
    )?;
    Ok(sets)
}

// A line at this time for each path that has ranks. The sets of the paths stand by path number.
fn lines_of_sets(alloc: Global, sets: Vec<RankSet>, time: u32) -> Result<Vec<StackLine>, AllocError>
    ensures { IfOk result (λ lines. AreLinesOf sets.items time lines.items) }
{
    let mut left = sets;
    let mut lines = Vec::new(alloc);
    while let Some(ranks) = left.pop() {
        if !ranks.is_empty() {
            match u32::try_from(left.len()) {
                Ok(path) => lines.push(StackLine { time, ranks, path })?,
                Err(_) => return Err(AllocError),
            }
        }
    }
    Ok(lines)
}

/// The wanted samples, as lines in the order of their paths: one for each path in which ranks were seen. The paths'
/// numbers are below `count`, and they have these places.
pub fn united_lines(
    alloc: Global,
    parted: &PartedLines,
    places: &[usize],
    count: usize,
    wanted: Wanted<'_>,
) -> Result<Vec<StackLine>, AllocError>
    requires samples { 0 < wanted.times.samples }
    requires nodes { (d : ℕ) → In d wanted.daemons.now → d < length parted.now.rows.items }
    requires rows { (d : ℕ) → In d wanted.daemons.now
        → AllByRecursion (λ line. line.path < count) (row_at (rows_view parted.now.rows.items) d) }
    requires spread { AllByRecursion (λ line. line.path < count) parted.now.spread.items }
    ensures { IfOk result (λ lines.
        AreWantedLines wanted.entry (rows_view parted.now.rows.items) parted.now.spread.items count lines.items) }
{
    let sets = ranks_seen(alloc, parted, count, wanted)?;
    let mut lines = lines_of_sets(alloc, sets, wanted.times.first())?;
    sort_row(&mut lines, places)?;
    Ok(lines)
}

/// The lines of a node at the times of a wave, as they are kept, or as they were made.
#[derive(Drop)]
pub enum HeldLines<'a> {
    Kept(&'a [StackLine]),
    Made(Vec<StackLine>),
}

/// The samples of a node at the times of a wave, in the order of their paths. Where the node has no part of a spread
/// line they are its row, which also has lines at other times.
pub fn node_lines<'a>(
    parted: &'a PartedLines,
    places: &[usize],
    n: u32,
    own: &RankSet,
    times: WaveTimes,
) -> Result<HeldLines<'a>, AllocError>
    requires rows { n < length parted.now.rows.items }
    requires numbers { n < length parted.now.numbers.items }
    requires indexed { (i r : ℕ) → Has r own.now → Has r (ranks_at (ranks_of_lines parted.now.spread.items) i)
        → Has i (ranks_at parted.now.numbers.items n) }
    requires own { AllByRecursion (λ line. IsSubset line.ranks own.now) (row_at (rows_view parted.now.rows.items) n) }
    ensures { IfOk result (λ held. AreNodeLines times.samples times.wave own.now
        (row_at (rows_view parted.now.rows.items) n) parted.now.spread.items (held_lines held)) }
{
    let row = &parted.rows[n as usize];
    let numbers = &parted.numbers[n as usize];
    if numbers.is_empty() {
        return Ok(HeldLines::Kept(row.as_slice()));
    }
    let mut lines = Vec::new(*parted.spread.allocator());
    add_parts(&mut lines, row.as_slice(), own, times)?;
    add_spread(&mut lines, parted.spread.as_slice(), numbers, own, times)?;
    sort_row(&mut lines, places)?;
    Ok(HeldLines::Made(lines))
}
