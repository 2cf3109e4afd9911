//! Numbers as a journal's lines write them.

ghost use Rattle.std.specs.Prelude.{◌≡◌, ◌≢◌, ◌<◌, ◌++◌, ℕ, MatchOption, OnOk};
ghost use Rattle.std.specs.Fmt.{decimal};

use itoa::Buffer;
use std::alloc::AllocError;

/// The number below 256 that a word writes in decimal, without a sign or a leading zero; none where it writes no such
/// number.
pub fn number_of_word(word: &[u8]) -> Option<u8>
    ensures { MatchOption result ((n : ℕ) → n < 256 → word.now ≢ decimal n) (λ n. word.now ≡ decimal n) }
{
    let Ok(text) = str::from_utf8(word) else {
        return None;
    };
    let Ok(number) = text.parse::<u8>() else {
        return None;
    };
    let mut digits = Buffer::new();
    if digits.format(number).as_bytes() == word {
        Some(number)
    } else {
        None
    }
}

/// Appends a number in decimal.
pub fn write_number(number: u8, out: &mut Vec<u8>) -> Result<(), AllocError>
    ensures { OnOk result (out.new.items ≡ out.old.items ++ decimal number) }
{
    let mut digits = Buffer::new();
    out.extend_from_slice(digits.format(number).as_bytes())?;
    Ok(())
}
