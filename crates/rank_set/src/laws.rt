//! Laws of words and runs: facts for the prover, which do nothing.

ghost use Rattle.std.specs.Prelude.{◌≡◌, ◌≢◌, ℕ, ◌<◌, ◌≤◌, ◌+◌, ◌++◌, List, [], ◌∷◌, length};
ghost use Rattle.rank_set.specs.Ranks.{Ranks, Has, none, union, in_order};
ghost use Rattle.rank_set.specs.Runs.{runs_of, ranks_of_runs, AreRuns};
ghost use Rattle.rank_set.specs.Words.{ranks_in, AreWords, offset_of};
ghost use Rattle.rank_set.specs.WordLists.{words_of, FitInWords};

use crate::RANK_LIMIT;

/// A law of words: trimmed words are those of their set, in just their place; the words of a set are trimmed, and make
/// the set; one word more adds the ranks of that word.
pub fn words_are_those_of_their_set()
    ensures offset { (o : ℕ) (ws : List ℕ) → AreWords o ws → FitInWords ws → offset_of (ranks_in o ws) ≡ o }
    ensures words { (o : ℕ) (ws : List ℕ) → AreWords o ws → FitInWords ws → words_of (ranks_in o ws) ≡ ws }
    ensures below { (o : ℕ) (ws : List ℕ) (r : ℕ) → AreWords o ws → Has r (ranks_in o ws) → r < RANK_LIMIT }
    ensures some { (o : ℕ) (ws : List ℕ) → AreWords o ws → FitInWords ws → ws ≢ [] → ranks_in o ws ≢ none }
    ensures trimmed { (s : Ranks) → ((r : ℕ) → Has r s → r < RANK_LIMIT) → AreWords (offset_of s) (words_of s) }
    ensures fit { (s : Ranks) → ((r : ℕ) → Has r s → r < RANK_LIMIT) → FitInWords (words_of s) }
    ensures ranks { (s : Ranks) → ((r : ℕ) → Has r s → r < RANK_LIMIT) → ranks_in (offset_of s) (words_of s) ≡ s }
    ensures nothing { (o : ℕ) → ranks_in o [] ≡ none }
    ensures push { (o : ℕ) (ws : List ℕ) (w : ℕ)
        → ranks_in o (ws ++ w ∷ []) ≡ union (ranks_in o ws) (ranks_in (o + length ws) (w ∷ [])) }
{}

/// A law of runs: the longest runs of a set are apart and in order, and make the set; there are 524,288 at most. Runs
/// that are apart and in order are the longest runs of their set.
pub fn runs_are_those_of_their_set()
    ensures apart { (s : Ranks) → ((r : ℕ) → Has r s → r < RANK_LIMIT) → AreRuns 0 (runs_of (in_order s)) }
    ensures ranks { (s : Ranks) → ((r : ℕ) → Has r s → r < RANK_LIMIT) → ranks_of_runs (runs_of (in_order s)) ≡ s }
    ensures len { (s : Ranks) → ((r : ℕ) → Has r s → r < RANK_LIMIT) → length (runs_of (in_order s)) ≤ 524288 }
    ensures runs { (rs : List (ℕ × ℕ)) → AreRuns 0 rs → runs_of (in_order (ranks_of_runs rs)) ≡ rs }
    ensures below { (rs : List (ℕ × ℕ)) (r : ℕ) → AreRuns 0 rs → Has r (ranks_of_runs rs) → r < RANK_LIMIT }
{}
