//! Numbers that are collected in ascending order, as words.

ghost use Rattle.std.specs.Prelude.{◌≡◌, ℕ, ◌≤◌, ◌<◌, ◌+◌, ◌-◌, ◌/◌, ◌%◌, ◌&&◌, ◌||◌, nat_le, true, [], ◌∷◌, ◌++◌, length, replicate, OnOk, IfOk};
ghost use Rattle.rank_set.specs.Ranks.{none, has, union};
ghost use Rattle.rank_set.specs.Words.{is_bit, ranks_in, AreWords};
ghost use Rattle.rank_places.specs.Collected.{collected, IsCollected};

use rank_set::{RANK_LIMIT, RankSet, WORD_LIMIT};
use std::alloc::{AllocError, Global};

/// Numbers as words of 64 bits. The last word is apart, since it may still grow.
#[derive(Drop)]
pub(crate) struct Collected {
    // The index of the first of the words among all words.
    pub(crate) offset: u32,
    pub(crate) words: Vec<u64>,
    // The index of the last word, which stands behind the others.
    pub(crate) index: u32,
    pub(crate) word: u64,
}

// Appends words of 0 up to a length.
fn pad(words: &mut Vec<u64>, len: usize) -> Result<(), AllocError>
    requires { length words.old.items ≤ len }
    ensures { OnOk result (words.new.items ≡ words.old.items ++ replicate (len - length words.old.items) 0) }
{
    if words.len() < len {
        words.resize(len, 0)?;
    }
    Ok(())
}

impl Collected {
    /// No numbers.
    pub(crate) fn new(alloc: Global) -> Collected
        ensures good { IsCollected result }
        ensures none { collected result ≡ none }
    {
        Collected {
            offset: 0,
            words: Vec::new(alloc),
            index: 0,
            word: 0,
        }
    }

    // Puts the last word behind the others.
    fn flush(&mut self) -> Result<(), AllocError>
        requires good { IsCollected self.old }
        requires some { 0 < self.old.word }
        ensures trimmed { OnOk result (AreWords self.new.offset self.new.words.items) }
        ensures end { OnOk result (self.new.offset + length self.new.words.items ≡ self.old.index + 1) }
        ensures numbers { OnOk result (ranks_in self.new.offset self.new.words.items ≡ collected self.old) }
    {
        if self.words.is_empty() {
            self.offset = self.index;
        }
        pad(&mut self.words, (self.index - self.offset) as usize)?;
        self.words.push(self.word)?;
        Ok(())
    }

    // Adds the numbers of a word that does not stand before the last.
    fn put_word(&mut self, index: u32, word: u64) -> Result<(), AllocError>
        requires good { IsCollected self.old }
        requires within_limit { 0 < word → index < WORD_LIMIT }
        requires above { (q : ℕ) → has (collected self.old) q ≡ true → q / 64 ≤ index }
        ensures good { OnOk result (IsCollected self.new) }
        ensures numbers { OnOk result (collected self.new ≡ union (collected self.old) (ranks_in index (word ∷ []))) }
    {
        if word == 0 {
            return Ok(());
        }
        if index == self.index {
            self.word |= word;
            return Ok(());
        }
        if self.word != 0 {
            self.flush()?;
        }
        self.index = index;
        self.word = word;
        Ok(())
    }

    /// Adds the number `at + i` for each bit i of a word. They are greater than those before.
    pub(crate) fn put(&mut self, at: u32, bits: u64) -> Result<(), AllocError>
        requires good { IsCollected self.old }
        requires below_limit { (i : ℕ) → is_bit bits i ≡ true → at + i < RANK_LIMIT }
        requires above { (q : ℕ) → has (collected self.old) q ≡ true → q < at }
        ensures good { OnOk result (IsCollected self.new) }
        ensures numbers { OnOk result ((q : ℕ)
            → has (collected self.new) q ≡ (has (collected self.old) q || (nat_le at q && is_bit bits (q - at)))) }
    {
        let (index, shift) = (at / 64, at % 64);
        self.put_word(index, bits << shift)?;
        self.put_word(index + 1, bits >> 1 >> (63 - shift))
    }

    /// The set of the numbers.
    pub(crate) fn finish(mut self, alloc: Global) -> Result<RankSet, AllocError>
        requires { IsCollected self }
        ensures { IfOk result (λ set. set ≡ collected self) }
    {
        if self.word != 0 {
            self.flush()?;
        }
        RankSet::from_words(alloc, self.offset, self.words)
    }
}
