//! The words of a line, at its spaces.

ghost use Rattle.std.specs.Prelude.{◌≡◌, ◌≤◌, ◌∷◌, ◌++◌, length, MatchOption, true};
ghost use Rattle.std.specs.List.{prefix_len};
ghost use Rattle.journal_text.specs.Words.{has_no_space, word_len};

// How many bytes are before the first space.
fn word_len(text: &[u8]) -> usize
    ensures value { result ≡ word_len text.now }
    ensures within { result ≤ length text.now }
{
    text.iter().take_while(|b| **b != b' ').count()
}

/// What stands before the first space of a text, and behind it; none where there is no space.
pub fn cut_at_space(text: &[u8]) -> Option<(&[u8], &[u8])>
    ensures { MatchOption result (has_no_space text.now ≡ true) (
        λ cut. (has_no_space cut.0.now ≡ true) × (text.now ≡ cut.0.now ++ 32 ∷ cut.1.now)
        ) }
{
    let (word, after) = text.split_at(word_len(text));
    match after.split_first() {
        Some((_, rest)) => Some((word, rest)),
        None => None,
    }
}
