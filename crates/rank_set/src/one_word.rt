//! A single word of ranks: bit i of word k stands for rank 64 * k + i.

ghost use Rattle.std.specs.Prelude.{◌≡◌, [], ◌∷◌, nat_lt};
ghost use Rattle.std.specs.List.{list_all};
ghost use Rattle.rank_set.specs.Ranks.{in_order, is_subset};
ghost use Rattle.rank_set.specs.Words.{ranks_in};

use crate::words::word_of;

// Whether all ranks of word `index` are among those of the words.
pub(crate) fn covers_word(offset: u32, words: &[u64], index: u32, word: u64) -> bool
    ensures { result ≡ is_subset (ranks_in index (word ∷ [])) (ranks_in offset words.now) }
{
    word & !word_of(offset, words, index) == 0
}

/// Whether all ranks of word `index` are below a count.
pub fn word_is_below(index: u32, word: u64, count: u32) -> bool
    ensures { result ≡ list_all (λ r. nat_lt r count) (in_order (ranks_in index (word ∷ []))) }
{
    let room = u64::from(count).saturating_sub(64 * u64::from(index));
    room >= 64 || word >> room == 0
}
