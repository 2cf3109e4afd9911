//! The lines of samples, parted by the nodes whose ranks they list.
//!
//! Nearly always all ranks of a line are one node's, which then gets the line: a line of its own, or none where its
//! last one is at the same time in the same path, and takes these ranks up. Other lines list ranks of several nodes.
//! They are *spread*: those of one path and time are united, and each node has the numbers of those that list its
//! ranks. What a spread line lists of a node is cut out of it when it is asked for
//! ([`wave_lines`](crate::wave_lines)), so that all lines together take memory as the text does, however many nodes
//! they are spread over.

ghost use Rattle.std.specs.Prelude.{◌≡◌, ◌≢◌, ◌<◌, ◌&&◌, ℕ, false, nat_eq, IfOk, IfSome, OnOk, [], length, map, get_or};
ghost use Rattle.std.specs.List.Sorted.{IsPermutation};
ghost use Rattle.rank_set.specs.Ranks.{none, has, Has, IsSubset};
ghost use Rattle.stat_plan.specs.Invariants.{ArePlacedOnce};
ghost use Rattle.stat_plan.specs.LineLists.{AreBelowLimit, line_view, one_rank, ranks_view};
ghost use Rattle.stat_plan.specs.OwnLines.{AreKeysOf, AreParted, AreIndexed, GainsRanks, ListPlacedRanks, TakesLine, ranks_at, ranks_of_lines};
ghost use Rattle.overlay_setup.specs.NodeSets.{up_to};
ghost use Rattle.stat_plan.specs.Samples.{all_ranks};
ghost use Rattle.stat_plan.specs.Tables.{AreRankNodes};
ghost use Rattle.overlay_setup.specs.Tables.{rows_view};

use crate::line_index::line_numbers;
use crate::line_list::{LineList, LineRanks, ListedLine};
use crate::samples::StackLine;
use indexmap::IndexSet;
use rank_set::{RANK_LIMIT, RankSet};
use rank_table::RankTable;
use std::alloc::{AllocError, Global};

// Notes the node of some ranks.
fn assign(rank_to_node: &mut RankTable, ranks: &RankSet, node: u32) -> Result<(), AllocError>
    requires { (r : ℕ) → Has r ranks.now → r < length rank_to_node.old }
    ensures length { length rank_to_node.new ≡ length rank_to_node.old }
    ensures ranks { OnOk result ((r : ℕ) → Has r ranks.now → get_or rank_to_node.new r 0 ≡ node) }
    ensures others { (r : ℕ) → has ranks.now r ≡ false
        → get_or rank_to_node.new r 0 ≡ get_or rank_to_node.old r 0 }
{
    let mut from = 0;
    let mut hint = 0;
    while let Some(run) = ranks.next_run_near(from, &mut hint) {
        from = run.last + 1;
        rank_to_node.set_run(run.first, from, node)?;
    }
    Ok(())
}

// The node of each placed rank, by rank. The entries of other ranks mean nothing. Nodes past the last that a number
// stands for are as if there were no memory for them.
fn rank_to_node_of(alloc: Global, placed: &[RankSet]) -> Result<RankTable, AllocError>
    requires once { ArePlacedOnce placed.now }
    ensures { IfOk result (λ rank_to_node. AreRankNodes placed.now rank_to_node) }
{
    let mut end = 0;
    for ranks in placed {
        end = end.max(ranks.end());
    }
    let mut rank_to_node = RankTable::new(alloc, end)?;
    for (n, ranks) in placed.iter().enumerate() {
        match u32::try_from(n) {
            Ok(node) => assign(&mut rank_to_node, ranks, node)?,
            Err(_) => return Err(AllocError),
        }
    }
    Ok(rank_to_node)
}

// Whether a line is at the time of another, in its path.
#[inline(always)]
fn is_at(line: &ListedLine<'_>, other: &StackLine) -> bool
    ensures { result ≡ (nat_eq other.now.time line.now.time && nat_eq other.now.path line.now.path) }
{
    other.time == line.time && other.path == line.path
}

// Gives a row ranks at the time of a line, in its path: its last line takes them up, if it is there too.
fn add_ranks(
    row: &mut Vec<StackLine>,
    line: &ListedLine<'_>,
    ranks: &RankSet,
) -> Result<(), AllocError>
    requires { ranks.now ≢ none }
    ensures { OnOk result (GainsRanks (line_view line.now) ranks.now row.old.items row.new.items) }
{
    let count = row.len();
    if count > 0 && is_at(line, &row[count - 1]) {
        return row[count - 1].ranks.union_into(ranks);
    }
    row.push(StackLine {
        time: line.time,
        ranks: ranks.copy()?,
        path: line.path,
    })?;
    Ok(())
}

// Gives a row one rank at the time of a line, in its path, in the same way.
#[inline(always)]
fn add_rank(row: &mut Vec<StackLine>, line: &ListedLine<'_>, rank: u32) -> Result<(), AllocError>
    requires { rank < RANK_LIMIT }
    ensures { OnOk result (GainsRanks (line_view line.now) (one_rank rank) row.old.items row.new.items) }
{
    let ranks = RankSet::in_one_word(*row.allocator(), rank, rank);
    let count = row.len();
    if count > 0 && is_at(line, &row[count - 1]) {
        return row[count - 1].ranks.union_into(&ranks);
    }
    row.push(StackLine {
        time: line.time,
        ranks,
        path: line.path,
    })?;
    Ok(())
}

// The node that has all of some ranks, if one has.
fn only_node(rank_to_node: &RankTable, placed: &[RankSet], ranks: &RankSet) -> Option<usize>
    requires rank_to_node { AreRankNodes placed.now rank_to_node.now }
    requires placed { IsSubset ranks.now (all_ranks placed.now) }
    ensures inside { IfSome result (λ n. n < length placed.now) }
    ensures subset { IfSome result (λ n. IsSubset ranks.now (ranks_at placed.now n)) }
{
    let first = ranks.first()?;
    let node = rank_to_node.number(first) as usize;
    if ranks.is_subset(&placed[node]) {
        Some(node)
    } else {
        None
    }
}

// The node that has a placed rank.
#[inline(always)]
fn node_of(rank_to_node: &RankTable, placed: &[RankSet], rank: u32) -> usize
    requires rank_to_node { AreRankNodes placed.now rank_to_node.now }
    requires placed { IsSubset (one_rank rank) (all_ranks placed.now) }
    ensures inside { result < length placed.now }
    ensures subset { IsSubset (one_rank rank) (ranks_at placed.now result) }
{
    // for the proof: whose ranks the table has
    let _ = placed;
    rank_to_node.number(rank) as usize
}

// Lines that list ranks of several nodes: one for each path and time.
#[derive(Drop)]
struct SpreadLines {
    // The path and the time of each line.
    keys: IndexSet<(u32, u32)>,
    lines: Vec<StackLine>,
}

impl SpreadLines {
    // No lines.
    fn new(alloc: Global) -> SpreadLines
        ensures keys { AreKeysOf result.keys.keys result.lines.items }
        ensures empty { result.lines.items ≡ [] }
    {
        SpreadLines {
            keys: IndexSet::new(alloc),
            lines: Vec::new(alloc),
        }
    }

    // Adds a line: the earlier one of its path and time takes its ranks up, if there is one.
    fn add(&mut self, line: &ListedLine<'_>, ranks: &RankSet) -> Result<(), AllocError>
        requires keys { AreKeysOf self.old.keys.keys self.old.lines.items }
        requires not_empty { ranks.now ≢ none }
        ensures keys { OnOk result (AreKeysOf self.new.keys.keys self.new.lines.items) }
        ensures gained { OnOk result
            (GainsRanks (line_view line.now) ranks.now self.old.lines.items self.new.lines.items) }
    {
        let (i, added) = self.keys.insert_full((line.path, line.time))?;
        if !added {
            return self.lines[i].ranks.union_into(ranks);
        }
        self.lines.push(StackLine {
            time: line.time,
            ranks: ranks.copy()?,
            path: line.path,
        })?;
        Ok(())
    }
}

// Shares a line out: a line of which all ranks are one node's goes to that node's row, and another joins the spread
// lines.
#[inline(always)]
fn part_line(
    rows: &mut [Vec<StackLine>],
    spread: &mut SpreadLines,
    rank_to_node: &RankTable,
    placed: &[RankSet],
    line: ListedLine<'_>,
) -> Result<(), AllocError>
    requires rank_to_node { AreRankNodes placed.now rank_to_node.now }
    requires once { ArePlacedOnce placed.now }
    requires paired { length rows.old ≡ length placed.now }
    requires keys { AreKeysOf spread.old.keys.keys spread.old.lines.items }
    requires not_empty { ranks_view line.ranks ≢ none }
    requires placed { IsSubset (ranks_view line.ranks) (all_ranks placed.now) }
    requires below_limit { AreBelowLimit line.ranks }
    ensures keys { OnOk result (AreKeysOf spread.new.keys.keys spread.new.lines.items) }
    ensures parted { OnOk result (TakesLine placed.now (line_view line.entry)
        spread.old.lines.items (rows_view rows.old) spread.new.lines.items (rows_view rows.new)) }
{
    let ranks = match line.ranks {
        LineRanks::One(rank) => {
            let node = node_of(rank_to_node, placed, rank);
            return add_rank(&mut rows[node], &line, rank);
        }
        LineRanks::Several(ranks) => ranks,
    };
    if let Some(node) = only_node(rank_to_node, placed, ranks) {
        return add_ranks(&mut rows[node], &line, ranks);
    }
    spread.add(&line, ranks)
}

// Shares the lines out.
fn part_lines(
    alloc: Global,
    rows: &mut [Vec<StackLine>],
    rank_to_node: &RankTable,
    placed: &[RankSet],
    lines: &LineList,
) -> Result<Vec<StackLine>, AllocError>
    requires rank_to_node { AreRankNodes placed.now rank_to_node.now }
    requires once { ArePlacedOnce placed.now }
    requires lines { ListPlacedRanks placed.now lines.now }
    requires empty { rows_view rows.old ≡ map (λ _. []) (up_to (length placed.now)) }
    ensures { IfOk result (λ spread. AreParted placed.now lines.now spread.items (rows_view rows.new)) }
{
    let mut spread = SpreadLines::new(alloc);
    for i in 0..lines.len() {
        part_line(rows, &mut spread, rank_to_node, placed, lines.line(i))?;
    }
    Ok(spread.lines)
}

// `n` empty rows.
fn empty_rows(alloc: Global, n: usize) -> Result<Vec<Vec<StackLine>>, AllocError>
    ensures { IfOk result (λ rows. rows_view rows.items ≡ map (λ _. []) (up_to n)) }
{
    let mut rows = Vec::new(alloc);
    for _ in 0..n {
        rows.push(Vec::new(alloc))?;
    }
    Ok(rows)
}

/// Sorts lines by the places of their paths. Lines of one path stay in their order.
pub fn sort_row(row: &mut Vec<StackLine>, places: &[usize]) -> Result<(), AllocError>
    ensures { IsPermutation row.old.items row.new.items }
{
    row.sort_by_key(|line| match places.get(line.path as usize) {
        Some(place) => *place,
        None => 0,
    })
}

/// Lines, parted by the nodes whose ranks they list.
#[derive(Drop)]
pub struct PartedLines {
    /// By node number, lines that list ranks of the node alone, in the order of their paths.
    pub rows: Vec<Vec<StackLine>>,
    /// Lines that list ranks of several nodes, one for each path and time, in the order of their paths.
    pub spread: Vec<StackLine>,
    /// By node number, the numbers of those spread lines that list ranks of the node.
    pub numbers: Vec<RankSet>,
}

/// The lines, parted. Each node's, and those that are spread, come in the order of their paths, which have these
/// places: so rows of a tree are appended at its end. That order is for speed alone, and no clause fixes it.
pub fn parted_lines(
    alloc: Global,
    placed: &[RankSet],
    lines: &LineList,
    places: &[usize],
) -> Result<PartedLines, AllocError>
    requires once { ArePlacedOnce placed.now }
    requires lines { ListPlacedRanks placed.now lines.now }
    ensures parted { IfOk result (λ all. AreParted placed.now lines.now all.spread.items (rows_view all.rows.items)) }
    ensures indexed { IfOk result (λ all. AreIndexed placed.now (ranks_of_lines all.spread.items) all.numbers.items) }
{
    let rank_to_node = rank_to_node_of(alloc, placed)?;
    let mut rows = empty_rows(alloc, placed.len())?;
    let mut spread = part_lines(alloc, &mut rows, &rank_to_node, placed, lines)?;
    for n in 0..rows.len() {
        sort_row(&mut rows[n], places)?;
    }
    sort_row(&mut spread, places)?;
    let numbers = line_numbers(alloc, placed, &rank_to_node, &spread)?;
    Ok(PartedLines {
        rows,
        spread,
        numbers,
    })
}
