//! A number for each rank, in a table that is short where neighbours have the same number.
//!
//! Ranks are kept by words of 64. A word whose ranks all have one number takes 16 bytes; only where they differ does it
//! hold 64 numbers. So a million ranks of a few hundred daemons, or of a few classes, take some hundred kilobytes, and
//! a long run of ranks of one number is passed, or written, 64 ranks at a step.
//!
//! ```text
//! let mut table = RankTable::new(alloc, 200)?;
//! table.set_run(10, 150, 7)?;
//! table.number(149)         // 7
//! table.run_at(20, 180)     // NumberRun { number: 7, end: 150 }
//! table.run_at(150, 180)    // NumberRun { number: 0, end: 180 }
//! ```
#![tactic(auto)]

ghost use Rattle.std.specs.Prelude.{◌≡◌, ◌≢◌, ◌<◌, ◌≤◌, ◌*◌, ℕ, length, get_or, IfOk, OnOk};
ghost use Rattle.rank_table.specs.Numbers.{number_at, numbers_of};

use std::alloc::{AllocError, Global};
use std::marker::Model;

// How many ranks a word has.
const WORD: u32 = 64;

// The numbers of the ranks of a word.
#[derive(Drop)]
enum WordNumbers {
    // Each rank has this one.
    Same(u32),
    // Each has its own.
    Each(Box<[u32; WORD as usize]>),
}

/// A number for each rank below an end, which is fixed when the table is made. A contract sees the list of the numbers,
/// by rank.
#[derive(Drop)]
pub struct RankTable {
    words: Vec<WordNumbers>,
    end: u32,
}

/// The number of a rank, and where the run of ranks that have it ends.
#[derive(Debug, PartialEq, Eq, Clone, Copy)]
pub struct NumberRun {
    /// The number.
    pub number: u32,
    /// The first rank behind the run.
    pub end: u32,
}

impl Model for RankTable {
    ghost use Rattle.std.specs.Prelude.{ℕ, List, length, ◌≤◌, ◌*◌};
    ghost use Rattle.rank_table.specs.Numbers.{numbers_below};

    ghost Value = { List ℕ };

    ghost view = { λ t. numbers_below t.words.items t.end };

    ghost invariant = { λ t. t.end ≤ 64 * length t.words.items };
}

impl RankTable {
    /// A table in which each rank below the end has the number 0. Fails only if memory runs out.
    pub fn new(alloc: Global, end: u32) -> Result<RankTable, AllocError>
        ensures length { IfOk result (λ table. length table ≡ end) }
        ensures zero { IfOk result (λ table. (r : ℕ) → get_or table r 0 ≡ 0) }
    {
        let count = end.div_ceil(WORD);
        let mut words = Vec::with_capacity(alloc, count as usize)?;
        for _ in 0..count {
            words.push(WordNumbers::Same(0))?;
        }
        Ok(RankTable { words, end })
    }

    /// How many ranks the table has: those below its end.
    pub fn len(&self) -> u32
        ensures { result ≡ length self.now }
    {
        self.end
    }

    /// The number of a rank, which must be below the table's end.
    pub fn number(&self, rank: u32) -> u32
        requires { rank < length self.now }
        ensures { result ≡ get_or self.now rank 0 }
    {
        number_in(&self.words[(rank / WORD) as usize], rank % WORD)
    }

    /// The number of the rank `first`, with the end of its run: the first rank from there on that has another number,
    /// or `end` if all before it have the same.
    pub fn run_at(&self, first: u32, end: u32) -> NumberRun
        requires some { first < end }
        requires in_table { end ≤ length self.now }
        ensures number { result.number ≡ get_or self.now first 0 }
        ensures passed { first < result.end }
        ensures within { result.end ≤ end }
        ensures same { (r : ℕ) → first ≤ r → r < result.end → get_or self.now r 0 ≡ result.number }
        ensures differs { result.end < end → get_or self.now result.end 0 ≢ result.number }
    {
        run_in(self.words.as_slice(), first, end)
    }

    /// Gives the ranks from `first` to before `end` a number. All others keep theirs. Where memory runs out, some of
    /// the given ranks may have the number and the rest not.
    pub fn set_run(&mut self, first: u32, end: u32, number: u32) -> Result<(), AllocError>
        requires order { first ≤ end }
        requires in_table { end ≤ length self.old }
        ensures length { length self.new ≡ length self.old }
        ensures given { OnOk result ((r : ℕ) → first ≤ r → r < end → get_or self.new r 0 ≡ number) }
        ensures below { (r : ℕ) → r < first → get_or self.new r 0 ≡ get_or self.old r 0 }
        ensures above { (r : ℕ) → end ≤ r → get_or self.new r 0 ≡ get_or self.old r 0 }
    {
        let alloc = *self.words.allocator();
        set_in(alloc, self.words.as_mut_slice(), first, end, number)
    }
}

// The run of the rank `first`, which ends before `end` or there.
fn run_in(words: &[WordNumbers], first: u32, end: u32) -> NumberRun
    requires some { first < end }
    requires in_words { end ≤ WORD * length words.now }
    ensures number { result.number ≡ number_at words.now first }
    ensures passed { first < result.end }
    ensures within { result.end ≤ end }
    ensures same { (r : ℕ) → first ≤ r → r < result.end → number_at words.now r ≡ result.number }
    ensures differs { result.end < end → number_at words.now result.end ≢ result.number }
{
    let number = number_in(&words[(first / WORD) as usize], first % WORD);
    let mut at = first + 1;
    while at < end {
        let base = at - at % WORD;
        let stop = (end - base).min(WORD);
        let same = same_until(&words[(at / WORD) as usize], at % WORD, stop, number);
        if same < stop {
            return NumberRun {
                number,
                end: base + same,
            };
        }
        at = base + stop;
    }
    NumberRun { number, end }
}

// Gives the ranks from `first` to before `end` a number.
fn set_in(
    alloc: Global,
    words: &mut [WordNumbers],
    first: u32,
    end: u32,
    number: u32,
) -> Result<(), AllocError>
    requires order { first ≤ end }
    requires in_words { end ≤ WORD * length words.old }
    ensures length { length words.new ≡ length words.old }
    ensures given { OnOk result ((r : ℕ) → first ≤ r → r < end → number_at words.new r ≡ number) }
    ensures below { (r : ℕ) → r < first → number_at words.new r ≡ number_at words.old r }
    ensures above { (r : ℕ) → end ≤ r → number_at words.new r ≡ number_at words.old r }
{
    let mut at = first;
    while at < end {
        let base = at - at % WORD;
        let stop = (end - base).min(WORD);
        set_in_word(
            alloc,
            &mut words[(at / WORD) as usize],
            at % WORD,
            stop,
            number,
        )?;
        at = base + stop;
    }
    Ok(())
}

// The number of the rank at a place of a word.
fn number_in(word: &WordNumbers, place: u32) -> u32
    requires { place < WORD }
    ensures { result ≡ get_or (numbers_of word.now) place 0 }
{
    match word {
        WordNumbers::Same(number) => *number,
        WordNumbers::Each(numbers) => numbers[place as usize],
    }
}

// The first place of a word from `first` on that has another number, or `end` if all before it have this one.
fn same_until(word: &WordNumbers, first: u32, end: u32, number: u32) -> u32
    requires order { first ≤ end }
    requires in_word { end ≤ WORD }
    ensures from_first { first ≤ result }
    ensures within { result ≤ end }
    ensures same { (i : ℕ) → first ≤ i → i < result → get_or (numbers_of word.now) i 0 ≡ number }
    ensures differs { result < end → get_or (numbers_of word.now) result 0 ≢ number }
{
    match word {
        WordNumbers::Same(all) if *all == number => end,
        WordNumbers::Same(_) => first,
        WordNumbers::Each(numbers) => same_places(numbers, first, end, number),
    }
}

// The same of a word in which each rank has its own number.
fn same_places(numbers: &[u32; WORD as usize], first: u32, end: u32, number: u32) -> u32
    requires order { first ≤ end }
    requires in_word { end ≤ WORD }
    ensures from_first { first ≤ result }
    ensures within { result ≤ end }
    ensures same { (i : ℕ) → first ≤ i → i < result → get_or numbers.now i 0 ≡ number }
    ensures differs { result < end → get_or numbers.now result 0 ≢ number }
{
    let mut at = first;
    while at < end && numbers[at as usize] == number {
        at += 1;
    }
    at
}

// Gives the ranks at some places of a word a number.
fn set_in_word(
    alloc: Global,
    word: &mut WordNumbers,
    first: u32,
    end: u32,
    number: u32,
) -> Result<(), AllocError>
    requires order { first ≤ end }
    requires in_word { end ≤ WORD }
    ensures given { OnOk result ((i : ℕ) → first ≤ i → i < end → get_or (numbers_of word.new) i 0 ≡ number) }
    ensures below { (i : ℕ) → i < first → get_or (numbers_of word.new) i 0 ≡ get_or (numbers_of word.old) i 0 }
    ensures above { (i : ℕ) → end ≤ i → i < WORD
        → get_or (numbers_of word.new) i 0 ≡ get_or (numbers_of word.old) i 0 }
{
    if end - first == WORD {
        *word = WordNumbers::Same(number);
        return Ok(());
    }
    match word {
        WordNumbers::Same(all) if *all == number => Ok(()),
        WordNumbers::Same(all) => {
            let mut numbers = Box::new(alloc, [*all; WORD as usize])?;
            set_places(&mut *numbers, first, end, number);
            *word = WordNumbers::Each(numbers);
            Ok(())
        }
        WordNumbers::Each(numbers) => {
            set_places(&mut **numbers, first, end, number);
            Ok(())
        }
    }
}

// The same of a word in which each rank has its own number.
fn set_places(numbers: &mut [u32; WORD as usize], first: u32, end: u32, number: u32)
    requires order { first ≤ end }
    requires in_word { end ≤ WORD }
    ensures given { (i : ℕ) → first ≤ i → i < end → get_or numbers.new i 0 ≡ number }
    ensures below { (i : ℕ) → i < first → get_or numbers.new i 0 ≡ get_or numbers.old i 0 }
    ensures above { (i : ℕ) → end ≤ i → get_or numbers.new i 0 ≡ get_or numbers.old i 0 }
{
    numbers[first as usize..end as usize].fill(number);
}
