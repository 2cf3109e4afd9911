//! Lines of samples in the order of their text, packed.
//!
//! Nearly always a line lists one rank, which stands in the line's entry, of 16 bytes. The ranks of other lines are
//! kept beside the entries.

ghost use Rattle.std.specs.Prelude.{◌≡◌, ◌<◌, ◌++◌, ◌∷◌, [], Some, OnErr, OnOk, length, slice_get};
ghost use Rattle.rank_set.specs.Ranks.{none, union};
ghost use Rattle.rank_set.specs.Runs.{ranks_between};
ghost use Rattle.stat_plan.specs.LineLists.{AreBelowLimit, line_view, stack_line};

use rank_set::{RANK_LIMIT, RankSet};
use std::alloc::{AllocError, Global};
use std::marker::Model;

// The ranks of a line: one rank, or the number of a set.
#[derive(Clone, Copy)]
enum EntryRanks {
    One(u32),
    Several(u32),
}

// A line.
#[derive(Clone, Copy)]
struct LineEntry {
    time: u32,
    path: u32,
    ranks: EntryRanks,
}

/// The ranks of a line.
#[derive(Clone, Copy)]
pub enum LineRanks<'a> {
    /// This rank alone.
    One(u32),
    /// These ranks.
    Several(&'a RankSet),
}

/// A line of a list.
#[derive(Clone, Copy)]
pub struct ListedLine<'a> {
    /// The number of the sample time.
    pub time: u32,
    /// The number of the path.
    pub path: u32,
    /// The ranks.
    pub ranks: LineRanks<'a>,
}

/// Lines of samples in the order of their text. A contract sees the list of them.
#[derive(Drop)]
pub struct LineList {
    entries: Vec<LineEntry>,
    // The sets of the lines that were given with a set.
    sets: Vec<RankSet>,
}

impl Model for LineList {
    ghost use Rattle.std.specs.Prelude.{List};
    ghost use Rattle.stat_plan.specs.LineLists.{AreEntriesOf, coded_lines, entry_lines};
    ghost use Rattle.stat_plan.specs.declared.samples.StackLine.{StackLine};

    ghost Value = { List StackLine };

    ghost coded = { coded_lines };

    ghost view = { λ a. entry_lines a.sets.items a.entries.items };

    ghost invariant = { λ a. AreEntriesOf a.sets.items a.entries.items };
}

impl LineList {
    /// No lines. It allocates nothing.
    pub fn new(alloc: Global) -> LineList
        ensures { result ≡ [] }
    {
        LineList {
            entries: Vec::new(alloc),
            sets: Vec::new(alloc),
        }
    }

    /// How many lines there are.
    #[inline(always)]
    pub fn len(&self) -> usize
        ensures { result ≡ length self.now }
    {
        self.entries.len()
    }

    /// Adds a line that lists one rank. On failure the list is unchanged.
    #[inline(always)]
    pub fn push_one(&mut self, time: u32, path: u32, rank: u32) -> Result<(), AllocError>
        requires { rank < RANK_LIMIT }
        ensures ok { OnOk result
            (self.new ≡ self.old ++ stack_line time path (union none (ranks_between rank rank)) ∷ []) }
        ensures err { OnErr result (self.new ≡ self.old) }
    {
        self.entries.push(LineEntry {
            time,
            path,
            ranks: EntryRanks::One(rank),
        })?;
        Ok(())
    }

    /// Adds a line. On failure the list is unchanged.
    ///
    /// More sets than a number of 32 bits can stand for are as if there were no memory for them.
    pub fn push(&mut self, time: u32, path: u32, ranks: RankSet) -> Result<(), AllocError>
        ensures ok { OnOk result (self.new ≡ self.old ++ stack_line time path ranks ∷ []) }
        ensures err { OnErr result (self.new ≡ self.old) }
    {
        let Ok(number) = u32::try_from(self.sets.len()) else {
            return Err(AllocError);
        };
        self.sets.push(ranks)?;
        self.entries.push(LineEntry {
            time,
            path,
            ranks: EntryRanks::Several(number),
        })?;
        Ok(())
    }

    /// The line with an index.
    #[inline(always)]
    pub fn line(&self, i: usize) -> ListedLine<'_>
        requires { i < length self.now }
        ensures line { slice_get self.now i ≡ Some (line_view result) }
        ensures below_limit { AreBelowLimit result.ranks }
    {
        let entry = &self.entries[i];
        let ranks = match entry.ranks {
            EntryRanks::One(rank) => LineRanks::One(rank),
            EntryRanks::Several(number) => LineRanks::Several(&self.sets[number as usize]),
        };
        ListedLine {
            time: entry.time,
            path: entry.path,
            ranks,
        }
    }
}
