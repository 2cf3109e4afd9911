//! How a set of ranks is held, and when it takes the other form.

ghost use Rattle.std.specs.Prelude.{◌≡◌, ◌<◌, ◌≤◌, true, false, OnOk, OnErr, IfOk};
ghost use Rattle.rank_set.specs.Ranks.{union};
ghost use Rattle.rank_set.specs.Runs.{ranks_between};
ghost use Rattle.rank_set.specs.Held.{ranks_held};

use crate::RANK_LIMIT;
use crate::run_set::RunSet;
use crate::word_set::WordSet;
use std::alloc::AllocError;

/// The ranks as words or as runs.
#[derive(Drop)]
pub(crate) enum Held {
    Words(WordSet),
    Runs(RunSet),
}

/// A set that spans fewer words is held as words: they are united and compared much faster than runs.
pub(crate) const FEW_WORDS: u32 = 16;

// Words that span at least so many, 8 KiB of them, are made runs where these take a quarter of the room.
const MANY_WORDS: u32 = 1_024;

// So many runs take ranks between them without being made words. More of them would be copied for each.
const FEW_RUNS: u32 = 16;

// How many runs are better than so many words, at most.
fn fitting_runs(span: u32) -> u32 {
    if span < MANY_WORDS {
        span / FEW_WORDS
    } else {
        span / 4
    }
}

impl Held {
    // How many words the ranks span.
    #[inline(always)]
    fn span(&self) -> u32 {
        match self {
            Held::Words(words) => words.span(),
            Held::Runs(runs) => runs.span(),
        }
    }

    /// Takes the other form where that takes less room. Where memory runs out the form stays.
    pub(crate) fn settle(&mut self)
        ensures { ranks_held self.new ≡ ranks_held self.old }
    {
        match self {
            Held::Words(words) => {
                let span = words.span();
                if span < MANY_WORDS {
                    return;
                }
                if let Ok(Some(runs)) = words.few_runs(fitting_runs(span)) {
                    *self = Held::Runs(runs);
                }
            }
            Held::Runs(runs) => {
                let span = runs.span();
                if span >= FEW_WORDS && runs.len() / 2 <= fitting_runs(span) {
                    return;
                }
                if let Ok(words) = runs.to_words() {
                    *self = Held::Words(words);
                }
            }
        }
    }

    /// Does so if the ranks span many words, past a power of two that they did not span before: so the runs of words
    /// that grow are seldom counted.
    #[inline(always)]
    pub(crate) fn settle_if_wider(&mut self, before: u32)
        ensures { ranks_held self.new ≡ ranks_held self.old }
    {
        let span = self.span();
        if span >= MANY_WORDS && span.leading_zeros() < before.leading_zeros() {
            self.settle();
        }
    }

    /// Adds the other ranks if they are one word that words reach, and returns whether they are.
    #[inline(always)]
    pub(crate) fn take_up_word(&mut self, other: &Held) -> bool
        ensures taken { result ≡ true → ranks_held self.new ≡ union (ranks_held self.old) (ranks_held other.now) }
        ensures left { result ≡ false → ranks_held self.new ≡ ranks_held self.old }
    {
        match (self, other) {
            (Held::Words(words), Held::Words(others)) => words.take_up_word(others),
            _ => false,
        }
    }

    // Takes the form of words where many runs would be copied for a run among them: then ranks in no order cost no more
    // than others.
    #[inline(always)]
    fn make_words_among_runs(&mut self, first: u32) -> Result<(), AllocError>
        ensures { ranks_held self.new ≡ ranks_held self.old }
    {
        if let Held::Runs(runs) = self
            && runs.len() > FEW_RUNS
            && first < runs.end()
        {
            let words = runs.to_words()?;
            *self = Held::Words(words);
        }
        Ok(())
    }

    /// Adds the ranks of a run that is not empty and within the limit, in the form that is held while the runs come in
    /// order: `settle` is for the caller. On failure the ranks stay.
    #[inline(always)]
    pub(crate) fn collect_run(&mut self, first: u32, last: u32) -> Result<(), AllocError>
        requires not_empty { first ≤ last }
        requires below_limit { last < RANK_LIMIT }
        ensures ok { OnOk result (ranks_held self.new ≡ union (ranks_held self.old) (ranks_between first last)) }
        ensures err { OnErr result (ranks_held self.new ≡ ranks_held self.old) }
    {
        self.make_words_among_runs(first)?;
        match self {
            Held::Words(words) => {
                let before = words.span();
                words.put_run(first, last)?;
                self.settle_if_wider(before);
            }
            Held::Runs(runs) => runs.put_run(first, last)?,
        }
        Ok(())
    }

    /// Adds the ranks of a run that is not empty and within the limit. On failure the ranks stay.
    pub(crate) fn put_run(&mut self, first: u32, last: u32) -> Result<(), AllocError>
        requires not_empty { first ≤ last }
        requires below_limit { last < RANK_LIMIT }
        ensures ok { OnOk result (ranks_held self.new ≡ union (ranks_held self.old) (ranks_between first last)) }
        ensures err { OnErr result (ranks_held self.new ≡ ranks_held self.old) }
    {
        self.collect_run(first, last)?;
        if let Held::Runs(_) = self {
            self.settle();
        }
        Ok(())
    }

    // Adds the other ranks, in the form that is held, or in that of wider runs.
    fn join(&mut self, other: &Held) -> Result<(), AllocError>
        ensures ok { OnOk result (ranks_held self.new ≡ union (ranks_held self.old) (ranks_held other.now)) }
        ensures err { OnErr result (ranks_held self.new ≡ ranks_held self.old) }
    {
        match (&mut *self, other) {
            (Held::Words(words), Held::Words(others)) => words.union_into(others),
            (Held::Words(words), Held::Runs(others)) => {
                if others.span() <= words.span() {
                    return words.union_into(&others.to_words()?);
                }
                let mut runs = words.to_runs()?;
                runs.union_into(others)?;
                *self = Held::Runs(runs);
                Ok(())
            }
            (Held::Runs(runs), Held::Words(others)) => runs.union_into(&others.to_runs()?),
            (Held::Runs(runs), Held::Runs(others)) => runs.union_into(others),
        }
    }

    /// Adds the other ranks. On failure the ranks stay.
    #[inline(never)]
    pub(crate) fn unite(&mut self, other: &Held) -> Result<(), AllocError>
        ensures ok { OnOk result (ranks_held self.new ≡ union (ranks_held self.old) (ranks_held other.now)) }
        ensures err { OnErr result (ranks_held self.new ≡ ranks_held self.old) }
    {
        let before = self.span();
        self.join(other)?;
        match self {
            Held::Words(_) => self.settle_if_wider(before),
            Held::Runs(_) => self.settle(),
        }
        Ok(())
    }
}
