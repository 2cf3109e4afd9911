//! The numbers of ranks.

ghost use Rattle.std.specs.Prelude.{◌≡◌, ◌≢◌, ◌<◌, ◌≤◌, ℕ, length};
ghost use Rattle.value_text.specs.Numbers.{number_of, AreSmall};
ghost use Rattle.value_text.specs.Views.{AreEntries, number_at, numbers_view};

use rank_table::RankTable;
use std::marker::Model;

/// A number for each rank that has one. A contract sees the list of them by rank, up to the last rank with a number.
/// Memory grows with the ranks of the plan, four bytes for each where neighbours have different numbers and a quarter
/// of a byte else, and with the lines of the text.
#[derive(Drop)]
pub struct Values {
    // By rank: 0 where it has no number, else the number's index and one.
    entries: RankTable,
    // One for each line of a value.
    numbers: Vec<i64>,
}

/// The number of some neighbouring ranks, and where they end.
#[derive(Debug, PartialEq, Eq, Clone, Copy)]
pub struct ValueRun {
    /// The number of each of them, or none where none of them has one.
    pub number: Option<i64>,
    /// The first rank behind them.
    pub end: u32,
}

impl Model for Values {
    ghost use Rattle.value_text.specs.Numbers.{Numbers};
    ghost use Rattle.value_text.specs.Views.{AreEntries, numbers_view};

    ghost Value = { Numbers };

    ghost view = { λ v. numbers_view v.entries v.numbers.items };

    ghost invariant = { λ v. AreEntries v.entries v.numbers.items };
}

// The number that an entry stands for.
fn number_at(numbers: &[i64], entry: u32) -> Option<i64>
    ensures { result ≡ number_at numbers.now entry }
{
    let index = entry.checked_sub(1)?;
    numbers.get(index as usize).copied()
}

impl Values {
    /// The numbers of a text, by their entries.
    pub(crate) fn new(entries: RankTable, numbers: Vec<i64>) -> Values
        requires { AreEntries entries numbers.items }
        ensures { result ≡ numbers_view entries numbers.items }
    {
        Values { entries, numbers }
    }

    /// The range of the numbers, for the prover. It does nothing.
    pub fn invariant(&self)
        ensures { AreSmall self.now }
    {
        // for the proof: the invariant of the fields
        let _ = &self.numbers;
    }

    /// The number of a rank, if it has one.
    pub fn number(&self, rank: u32) -> Option<i64>
        ensures { result ≡ number_of self.now rank }
    {
        if rank >= self.entries.len() {
            return None;
        }
        number_at(self.numbers.as_slice(), self.entries.number(rank))
    }

    // The first rank behind some ranks from `first` on that have its number, not always all of them.
    fn end_of_same(&self, first: u32, end: u32) -> u32
        requires { first < end }
        ensures same { (r : ℕ) → first ≤ r → r < result → number_of self.now r ≡ number_of self.now first }
        ensures passed { first < result }
        ensures within { result ≤ end }
    {
        let len = self.entries.len();
        if first >= len {
            return end;
        }
        self.entries.run_at(first, end.min(len)).end
    }

    /// The number of the rank `first`, which may be none, with the end of its run: the first rank from there on that
    /// has another number, or `end` if all before it have the same.
    pub fn run_at(&self, first: u32, end: u32) -> ValueRun
        requires { first < end }
        ensures number { (r : ℕ) → first ≤ r → r < result.end → number_of self.now r ≡ result.number }
        ensures passed { first < result.end }
        ensures within { result.end ≤ end }
        ensures differs { result.end < end → number_of self.now result.end ≢ result.number }
    {
        let number = self.number(first);
        let mut next = first + 1;
        while next < end && self.number(next) == number {
            next = self.end_of_same(next, end);
        }
        ValueRun { number, end: next }
    }
}
