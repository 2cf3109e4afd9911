//! What is parsed of a values text so far.

ghost use Rattle.std.specs.Prelude.{◌≡◌, ◌≤◌, ◌<◌, ◌↔◌, ℕ, true, false, length, get_or, IfOk, OnOk, Ok, []};
ghost use Rattle.rank_set.specs.Ranks.{has, Has};
ghost use Rattle.rank_set.specs.Runs.{IsRunInRange};
ghost use Rattle.text_lines.specs.Parsing.{IsErrorOf};
ghost use Rattle.value_text.specs.Views.{HasEntry, HasRun};

use crate::numbers::number_text;
use crate::values::Values;
use crate::words::{UsualValue, usual_value, value_words};
use rank_set::{RankSet, Run};
use rank_table::RankTable;
use std::alloc::{AllocError, Global};
use text_lines::{LineParser, Reason, TextError, ranks_on, says_nothing};

/// The numbers so far, and which ranks are on a daemon.
#[derive(Drop)]
pub struct Parser<'p> {
    placed: &'p RankSet,
    // The first run of these ranks, which may be of none.
    first_run: Run,
    // By rank: 0 where it has no number, else the number's index and one.
    entries: RankTable,
    // One for each line of a value.
    numbers: Vec<i64>,
}

// The first run of some ranks, or one of none.
fn first_run(ranks: &RankSet) -> Run
    ensures { HasRun ranks.now result.first result.last }
{
    match ranks.next_run(0) {
        Some(run) => run,
        None => Run { first: 1, last: 0 },
    }
}

// Whether each rank of a run is one of some ranks, of which `known` are a run.
#[inline(always)]
fn are_in(
    alloc: Global,
    ranks: &RankSet,
    known: Run,
    first: u32,
    last: u32,
) -> Result<bool, AllocError>
    requires known { HasRun ranks.now known.first known.last }
    requires in_range { IsRunInRange first last }
    ensures { IfOk result (λ all. (all ≡ true) ↔ HasRun ranks.now first last) }
{
    if known.first <= first && last <= known.last {
        return Ok(true);
    }
    if first == last {
        return Ok(ranks.contains(first));
    }
    are_within(alloc, ranks, first, last)
}

// The same of any run, by the set of its ranks.
#[inline(never)]
fn are_within(alloc: Global, ranks: &RankSet, first: u32, last: u32) -> Result<bool, AllocError>
    requires in_range { IsRunInRange first last }
    ensures { IfOk result (λ all. (all ≡ true) ↔ HasRun ranks.now first last) }
{
    let mut run = RankSet::new(alloc);
    run.collect_run(first, last)?;
    Ok(run.is_subset(ranks))
}

// Whether one of the ranks of a run has an entry other than 0.
#[inline(always)]
fn run_has_entry(entries: &RankTable, first: u32, last: u32) -> bool
    requires in_range { IsRunInRange first last }
    requires in_table { last < length entries.now }
    ensures { (result ≡ false) ↔ HasEntry entries.now first last 0 }
{
    if first == last {
        return entries.number(first) != 0;
    }
    let part = entries.run_at(first, last + 1);
    part.number != 0 || part.end <= last
}

// Whether one of some ranks has an entry other than 0.
fn has_entry(entries: &RankTable, ranks: &RankSet) -> bool
    requires { (r : ℕ) → Has r ranks.now → r < length entries.now }
    ensures { (result ≡ false) ↔ ((r : ℕ) → Has r ranks.now → get_or entries.now r 0 ≡ 0) }
{
    let mut from = 0;
    let mut hint = 0;
    while let Some(run) = ranks.next_run_near(from, &mut hint) {
        from = run.last + 1;
        if run_has_entry(entries, run.first, run.last) {
            return true;
        }
    }
    false
}

// Gives ranks an entry.
fn set_entries(entries: &mut RankTable, ranks: &RankSet, entry: u32) -> Result<(), AllocError>
    requires { (r : ℕ) → Has r ranks.now → r < length entries.old }
    ensures length { length entries.new ≡ length entries.old }
    ensures ranks { OnOk result ((r : ℕ) → Has r ranks.now → get_or entries.new r 0 ≡ entry) }
    ensures others { (r : ℕ) → has ranks.now r ≡ false → get_or entries.new r 0 ≡ get_or entries.old r 0 }
{
    let mut from = 0;
    let mut hint = 0;
    while let Some(run) = ranks.next_run_near(from, &mut hint) {
        from = run.last + 1;
        entries.set_run(run.first, from, entry)?;
    }
    Ok(())
}

impl<'p> Parser<'p> {
    ghost use Rattle.value_text.specs.Numbers.{IsSmall};
    ghost use Rattle.value_text.specs.Steps.{with_line, with_value};
    ghost use Rattle.value_text.specs.UsualLines.{run_ranks, with_given};
    ghost use Rattle.value_text.specs.Views.{parser_view, parser_placed, IsConsistent};

    /// A parser before the first line, where these ranks are on a daemon.
    pub fn new(alloc: Global, placed: &'p RankSet) -> Result<Parser<'p>, AllocError>
        ensures view { IfOk result (λ parser. parser_view parser ≡ []) }
        ensures placed { IfOk result (λ parser. parser_placed parser ≡ placed.now) }
        ensures consistent { IfOk result (λ parser. IsConsistent parser) }
    {
        let first_run = first_run(placed);
        let entries = RankTable::new(alloc, placed.end())?;
        let numbers = Vec::new(alloc);
        Ok(Parser {
            placed,
            first_run,
            entries,
            numbers,
        })
    }

    // A line `value RANKS NUMBER`.
    fn value(&mut self, line_number: u64, word: &[u8], number: &[u8]) -> Result<(), TextError>
        requires { IsConsistent self.old }
        ensures ok { OnOk result (
            with_value (parser_placed self.old) (parser_view self.old) line_number word.now number.now
            ≡ Ok (parser_view self.new)
            ) }
        ensures placed { parser_placed self.new ≡ parser_placed self.old }
        ensures consistent { OnOk result (IsConsistent self.new) }
        ensures err { IsErrorOf result (
            with_value (parser_placed self.old) (parser_view self.old) line_number word.now number.now
            ) }
    {
        let ranks = ranks_on(*self.numbers.allocator(), line_number, word)?;
        if !ranks.is_subset(self.placed) {
            return Err(TextError::bad(line_number, Reason::Unplaced));
        }
        if has_entry(&self.entries, &ranks) {
            return Err(TextError::bad(line_number, Reason::ValueTwice));
        }
        let Some(number) = number_text(number) else {
            return Err(TextError::bad(line_number, Reason::BadValue));
        };
        self.numbers.push(number)?;
        // more numbers than an entry can stand for are as if there were no memory for them
        let Ok(entry) = u32::try_from(self.numbers.len()) else {
            return Err(TextError::OutOfMemory);
        };
        set_entries(&mut self.entries, &ranks, entry)?;
        Ok(())
    }

    /// Gives each rank of a run its number, which a line says.
    #[inline(always)]
    pub fn give_run(&mut self, line_number: u64, value: UsualValue) -> Result<(), TextError>
        requires consistent { IsConsistent self.old }
        requires number { IsSmall value.number }
        requires in_range { IsRunInRange value.first value.last }
        ensures ok { OnOk result (
            with_given (parser_placed self.old) (parser_view self.old) line_number
            (run_ranks value.first value.last) value.number
            ≡ Ok (parser_view self.new)
            ) }
        ensures placed { parser_placed self.new ≡ parser_placed self.old }
        ensures consistent { OnOk result (IsConsistent self.new) }
        ensures err { IsErrorOf result (
            with_given (parser_placed self.old) (parser_view self.old) line_number
            (run_ranks value.first value.last) value.number
            ) }
    {
        let alloc = *self.numbers.allocator();
        if !are_in(alloc, self.placed, self.first_run, value.first, value.last)? {
            return Err(TextError::bad(line_number, Reason::Unplaced));
        }
        if run_has_entry(&self.entries, value.first, value.last) {
            return Err(TextError::bad(line_number, Reason::ValueTwice));
        }
        self.numbers.push(value.number)?;
        // more numbers than an entry can stand for are as if there were no memory for them
        let Ok(entry) = u32::try_from(self.numbers.len()) else {
            return Err(TextError::OutOfMemory);
        };
        self.entries.set_run(value.first, value.last + 1, entry)?;
        Ok(())
    }

    // Takes the next line, of any form.
    #[inline(never)]
    fn take_any(&mut self, line_number: u64, line: &[u8]) -> Result<(), TextError>
        requires { IsConsistent self.old }
        ensures ok { OnOk result (
            with_line (parser_placed self.old) (parser_view self.old) line_number line.now
            ≡ Ok (parser_view self.new)
            ) }
        ensures placed { parser_placed self.new ≡ parser_placed self.old }
        ensures consistent { OnOk result (IsConsistent self.new) }
        ensures err { IsErrorOf result (
            with_line (parser_placed self.old) (parser_view self.old) line_number line.now
            ) }
    {
        if says_nothing(line) {
            return Ok(());
        }
        let Ok(_) = str::from_utf8(line) else {
            return Err(TextError::bad(line_number, Reason::NotUtf8));
        };
        let Some((ranks, number)) = value_words(line) else {
            return Err(TextError::bad(line_number, Reason::BadDirective));
        };
        self.value(line_number, ranks, number)?;
        Ok(())
    }

    /// The numbers of the text.
    pub fn finish(self) -> Values
        requires { IsConsistent self }
        ensures { result ≡ parser_view self.entry }
    {
        Values::new(self.entries, self.numbers)
    }
}

impl LineParser for Parser<'_> {
    ghost use Rattle.text_lines.specs.Parsing.{TakesBy, RefusesBy};
    ghost use Rattle.value_text.specs.Steps.{with_line};
    ghost use Rattle.value_text.specs.Views.{parser_view, parser_placed, IsConsistent};

    ghost is_ready = { IsConsistent };

    ghost takes = { TakesBy parser_placed parser_view with_line };

    ghost refuses = { RefusesBy parser_placed parser_view with_line };

    fn take(self, line_number: u64, line: &[u8]) -> Result<Self, TextError> {
        let mut parser = self;
        if let Some(value) = usual_value(line) {
            parser.give_run(line_number, value)?;
            return Ok(parser);
        }
        parser.take_any(line_number, line)?;
        Ok(parser)
    }
}
