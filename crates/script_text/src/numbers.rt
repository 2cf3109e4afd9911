//! Numbers that words write, with their ranges.

ghost use Rattle.text_lines.specs.Parsing.{IsValueOf, IsErrorOf};
ghost use Rattle.std.specs.Prelude.{◌≡◌, ◌<◌, ◌≤◌, ◌^◌, IfErr, IfOk, Ok, Err};
ghost use Rattle.script_text.specs.Numbers.{number_from};

use text_lines::{Reason, TextError, number_in};

/// The number from `least` to `most` that a word of a line writes. A word that writes no number, or less, is a bad
/// number; one that writes more has the error that is given.
pub fn number_from(
    line_number: u64,
    least: u32,
    most: u32,
    more: TextError,
    word: &[u8],
) -> Result<u32, TextError>
    requires order { least ≤ most }
    requires limit_fits { most < 2 ^ 24 }
    ensures ok { IsValueOf result (number_from line_number least most more word.now) }
    ensures least { IfOk result (λ n. least ≤ n) }
    ensures most { IfOk result (λ n. n ≤ most) }
    ensures err { IfErr result (λ e. number_from line_number least most more word.now ≡ Err e) }
{
    let Some(n) = number_in(word, most + 1) else {
        return Err(TextError::bad(line_number, Reason::BadNumber));
    };
    if n < least {
        return Err(TextError::bad(line_number, Reason::BadNumber));
    }
    if n > most {
        return Err(more);
    }
    Ok(n)
}
