//! Sets of ranks as words of 64 bits that are trimmed at both ends.

ghost use Rattle.std.specs.Prelude.{◌≡◌, ℕ, ◌<◌, ◌≤◌, ◌/◌, ◌↔◌, true, false, OnOk, OnErr, IfOk, IfSome, IfNone, Some, slice_get, not, map, ◌++◌, [], ◌∷◌};
ghost use Rattle.rank_set.specs.Ranks.{none, has, union, those, in_order, is_empty, is_subset, size, Has};
ghost use Rattle.rank_set.specs.Runs.{ranks_between, IsRun, runs_of, up_to};
ghost use Rattle.rank_set.specs.Words.{ranks_in, AreWords, offset_of};
ghost use Rattle.rank_set.specs.WordLists.{words_of};
ghost use Rattle.rank_set.specs.Text.{text_of, BeginsWith};

use crate::run_set::RunSet;
use crate::text::write_ranks;
use crate::words::Words;
use crate::{RANK_LIMIT, Run, one_word, run_list, words};
use std::alloc::{AllocError, Global};
use std::marker::Model;

/// Ranks as words. Their methods are those of `RankSet`.
#[derive(Drop)]
pub(crate) struct WordSet {
    // The index of the first word among all words: bit i of word k stands for rank 64 * k + i.
    offset: u32,
    // Neither the first nor the last is 0, and with no words the offset is 0.
    words: Words,
}

impl Model for WordSet {
    ghost use Rattle.rank_set.specs.Ranks.{Ranks, coded_ranks};
    ghost use Rattle.rank_set.specs.Words.{ranks_in, AreWords};

    ghost Value = { Ranks };

    ghost coded = { coded_ranks };

    ghost view = { λ a. ranks_in a.offset a.words.items };

    ghost invariant = { λ a. AreWords a.offset a.words.items };
}

impl WordSet {
    /// The empty set. It allocates nothing.
    pub(crate) fn new(alloc: Global) -> WordSet
        ensures { result ≡ none }
    {
        WordSet {
            offset: 0,
            words: Words::new(alloc),
        }
    }

    /// The invariant of a set, for the prover: each rank is below `RANK_LIMIT`. It does nothing.
    pub(crate) fn invariant(&self)
        ensures { (r : ℕ) → Has r self.now → r < RANK_LIMIT }
    {
        // for the proof: the invariant of the value
        let _offset = self.offset;
    }

    /// The set of trimmed words, the first of which is word `offset` of all.
    pub(crate) fn from_words(offset: u32, words: Vec<u64>) -> WordSet
        requires { AreWords offset words.items }
        ensures { result ≡ ranks_in offset words.items }
    {
        WordSet {
            offset,
            words: Words::from_vec(words),
        }
    }

    /// The set of the same words, the first of which is word `offset` of all.
    pub(crate) fn at_word(&self, offset: u32) -> Result<WordSet, AllocError>
        requires { AreWords offset (words_of self.now) }
        ensures { IfOk result (λ moved. moved ≡ ranks_in offset (words_of self.now)) }
    {
        Ok(WordSet {
            offset,
            words: words::copy_of(*self.words.allocator(), self.held_words())?,
        })
    }

    /// The allocator of the set.
    pub(crate) fn allocator(&self) -> Global {
        *self.words.allocator()
    }

    /// A copy of the set.
    pub(crate) fn copy(&self) -> Result<WordSet, AllocError>
        ensures { IfOk result (λ copy. copy ≡ self.now) }
    {
        Ok(WordSet {
            offset: self.offset,
            words: words::copy_of(*self.words.allocator(), self.words.as_slice())?,
        })
    }

    /// How many words the set spans.
    pub(crate) fn span(&self) -> u32 {
        self.words.len() as u32
    }

    /// The ranks from `first` to `last`, which lie in one word. It allocates nothing.
    pub(crate) fn in_one_word(alloc: Global, first: u32, last: u32) -> WordSet
        requires not_empty { first ≤ last }
        requires below_limit { last < RANK_LIMIT }
        requires one { first / 64 ≡ last / 64 }
        ensures { result ≡ union none (ranks_between first last) }
    {
        WordSet {
            offset: first / 64,
            words: words::one_word(alloc, first, last),
        }
    }

    /// Adds the ranks of a run that is not empty and within the limit. On failure the set is unchanged.
    pub(crate) fn put_run(&mut self, first: u32, last: u32) -> Result<(), AllocError>
        requires not_empty { first ≤ last }
        requires below_limit { last < RANK_LIMIT }
        ensures ok { OnOk result (self.new ≡ union self.old (ranks_between first last)) }
        ensures err { OnErr result (self.new ≡ self.old) }
    {
        words::add_run(&mut self.offset, &mut self.words, first, last)
    }

    /// Adds the ranks of the other set if it is one word that the words reach, and returns whether it is.
    #[inline(always)]
    pub(crate) fn take_up_word(&mut self, other: &WordSet) -> bool
        ensures taken { result ≡ true → self.new ≡ union self.old other.now }
        ensures left { result ≡ false → self.new ≡ self.old }
    {
        let others = other.words.as_slice();
        if others.len() != 1
            || !words::spans(self.offset, self.words.as_slice(), other.offset, others)
        {
            return false;
        }
        words::or_within(self.words.as_mut_slice(), self.offset, other.offset, others);
        true
    }

    /// Adds the ranks of the other set. On failure the set is unchanged.
    pub(crate) fn union_into(&mut self, other: &WordSet) -> Result<(), AllocError>
        ensures ok { OnOk result (self.new ≡ union self.old other.now) }
        ensures err { OnErr result (self.new ≡ self.old) }
    {
        words::add_words(
            &mut self.offset,
            &mut self.words,
            other.offset,
            other.words.as_slice(),
        )
    }

    /// The ranks of both sets, in one allocation at most.
    pub(crate) fn united(&self, other: &WordSet) -> Result<WordSet, AllocError>
        ensures { IfOk result (λ all. all ≡ union self.now other.now) }
    {
        let (offset, words) = words::united(
            *self.words.allocator(),
            self.offset,
            self.words.as_slice(),
            other.offset,
            other.words.as_slice(),
        )?;
        Ok(WordSet { offset, words })
    }

    /// The ranks that are in the other set, too.
    pub(crate) fn intersection(&self, other: &WordSet) -> Result<WordSet, AllocError>
        ensures { IfOk result (λ both. both ≡ those (λ r. has other.now r) self.now) }
    {
        let mut offset = self.offset;
        let mut words = words::copy_of(*self.words.allocator(), self.words.as_slice())?;
        words::intersect_words(
            words.as_mut_slice(),
            offset,
            other.offset,
            other.words.as_slice(),
        );
        words::trim(&mut offset, &mut words);
        Ok(WordSet { offset, words })
    }

    /// The ranks that are not in the other set.
    pub(crate) fn difference(&self, other: &WordSet) -> Result<WordSet, AllocError>
        ensures { IfOk result (λ rest. rest ≡ those (λ r. not (has other.now r)) self.now) }
    {
        let mut offset = self.offset;
        let mut words = words::copy_of(*self.words.allocator(), self.words.as_slice())?;
        words::clear_words(
            words.as_mut_slice(),
            offset,
            other.offset,
            other.words.as_slice(),
        );
        words::trim(&mut offset, &mut words);
        Ok(WordSet { offset, words })
    }

    /// Whether the rank is in the set.
    pub(crate) fn contains(&self, r: u32) -> bool
        ensures { result ≡ has self.now r }
    {
        words::word_of(self.offset, self.words.as_slice(), r / 64) >> (r % 64) & 1 == 1
    }

    /// Whether each rank of the set is in the other.
    pub(crate) fn is_subset(&self, other: &WordSet) -> bool
        ensures { result ≡ is_subset self.now other.now }
    {
        words::all_are_in(
            self.offset,
            self.words.as_slice(),
            other.offset,
            other.words.as_slice(),
        )
    }

    /// Whether no rank of the set is in the other.
    pub(crate) fn is_disjoint(&self, other: &WordSet) -> bool
        ensures { result ≡ is_empty (those (λ r. has other.now r) self.now) }
    {
        words::are_disjoint(
            self.offset,
            self.words.as_slice(),
            other.offset,
            other.words.as_slice(),
        )
    }

    /// Whether the two sets have the same ranks.
    pub(crate) fn equals(&self, other: &WordSet) -> bool
        ensures { (result ≡ true) ↔ (self.now ≡ other.now) }
    {
        words::are_same(
            self.offset,
            self.words.as_slice(),
            other.offset,
            other.words.as_slice(),
        )
    }

    /// Whether the set has no ranks.
    pub(crate) fn is_empty(&self) -> bool
        ensures { result ≡ is_empty self.now }
    {
        words::has_none(self.offset, self.words.as_slice())
    }

    /// The number of ranks in the set.
    pub(crate) fn count(&self) -> u32
        ensures count { result ≡ size self.now }
        ensures within_limit { result ≤ RANK_LIMIT }
    {
        words::ones(self.words.as_slice())
    }

    /// The least rank, `None` for the empty set.
    pub(crate) fn first(&self) -> Option<u32>
        ensures none { IfNone result (self.now ≡ none) }
        ensures least { IfSome result (λ r. slice_get (in_order self.now) 0 ≡ Some r) }
        ensures below_limit { IfSome result (λ r. r < RANK_LIMIT) }
    {
        words::least(self.offset, self.words.as_slice())
    }

    /// A number above each rank.
    pub(crate) fn end(&self) -> u32
        ensures above { (r : ℕ) → has self.now r ≡ true → r < result }
        ensures within_limit { result ≤ RANK_LIMIT }
    {
        64 * (self.offset + self.words.len() as u32)
    }

    /// The longest run of neighbours that begins with the least rank at or above `from`.
    pub(crate) fn next_run(&self, from: u32) -> Option<Run>
        ensures none { IfNone result ((q : ℕ) → from ≤ q → has self.now q ≡ false) }
        ensures run { IfSome result (λ run. IsRun self.now from run.first run.last) }
        ensures below_limit { IfSome result (λ run. run.last < RANK_LIMIT) }
    {
        words::next_run(self.offset, self.words.as_slice(), from)
    }

    /// The longest run among the ranks up to `to` that begins with the least rank at or above `from`. It goes through
    /// the words from that of `from` to that of `to` at most.
    pub(crate) fn run_within(&self, from: u32, to: u32) -> Option<Run>
        ensures none { IfNone result ((q : ℕ) → from ≤ q → q ≤ to → has self.now q ≡ false) }
        ensures run { IfSome result (λ run. IsRun (up_to to self.now) from run.first run.last) }
        ensures below_limit { IfSome result (λ run. run.last < RANK_LIMIT) }
    {
        words::run_within(self.offset, self.words.as_slice(), from, to)
    }

    /// Whether all ranks of a run are in the set.
    pub(crate) fn has_run(&self, run: Run) -> bool
        requires { run.first ≤ run.last }
        ensures { result ≡ is_subset (ranks_between run.first run.last) self.now }
    {
        match self.run_within(run.first, run.last) {
            Some(within) => within.first == run.first && within.last == run.last,
            None => false,
        }
    }

    /// All longest runs of neighbours, in order.
    pub(crate) fn runs(&self, alloc: Global) -> Result<Vec<Run>, AllocError>
        ensures { IfOk result (λ runs. map (λ run. (run.first, run.last)) runs.items ≡ runs_of (in_order self.now)) }
    {
        run_list::runs_in(alloc, self.offset, self.words.as_slice())
    }

    /// The same ranks as runs.
    pub(crate) fn to_runs(&self) -> Result<RunSet, AllocError>
        ensures { IfOk result (λ runs. runs ≡ self.now) }
    {
        // for the proof: each rank is below the limit
        self.invariant();
        let runs = self.runs(self.allocator())?;
        Ok(RunSet::from_runs(runs))
    }

    /// The same ranks as runs, or `None` if these are more than `most`.
    pub(crate) fn few_runs(&self, most: u32) -> Result<Option<RunSet>, AllocError>
        ensures { IfOk result (λ found. IfSome found (λ runs. runs ≡ self.now)) }
    {
        if words::run_starts(self.words.as_slice()) > most {
            return Ok(None);
        }
        let runs = self.to_runs()?;
        Ok(Some(runs))
    }

    /// Appends the set's text, as `4:[0-2,7]`. On failure a part of it may stand behind what `out` had.
    pub(crate) fn write_text(&self, out: &mut Vec<u8>) -> Result<(), AllocError>
        ensures ok { OnOk result (out.new.items ≡ out.old.items ++ text_of self.now) }
        ensures kept { BeginsWith out.new.items out.old.items }
    {
        write_ranks(self.offset, self.words.as_slice(), out)
    }

    /// The index of the first word among all words: the least rank / 64, or 0 for the empty set.
    pub(crate) fn word_offset(&self) -> u32
        ensures { result ≡ offset_of self.now }
    {
        words::offset_in(self.offset, self.words.as_slice())
    }

    /// The words from that of the least rank to that of the greatest.
    pub(crate) fn words(&self, alloc: Global) -> Result<Vec<u64>, AllocError>
        ensures trimmed { IfOk result (λ words. AreWords (offset_of self.now) words.items) }
        ensures ranks { IfOk result (λ words. ranks_in (offset_of self.now) words.items ≡ self.now) }
        ensures list { IfOk result (λ words. words.items ≡ words_of self.now) }
    {
        words::words_in(alloc, self.offset, self.words.as_slice())
    }

    /// The same words without a copy.
    pub(crate) fn held_words(&self) -> &[u64]
        ensures trimmed { AreWords (offset_of self.now) result.now }
        ensures ranks { ranks_in (offset_of self.now) result.now ≡ self.now }
        ensures list { result.now ≡ words_of self.now }
    {
        words::held(self.offset, self.words.as_slice())
    }

    /// Whether all ranks of word `index` are in the set.
    pub(crate) fn covers_word(&self, index: u32, word: u64) -> bool
        ensures { result ≡ is_subset (ranks_in index (word ∷ [])) self.now }
    {
        one_word::covers_word(self.offset, self.words.as_slice(), index, word)
    }
}
