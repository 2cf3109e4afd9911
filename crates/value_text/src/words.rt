//! The words of a line `value RANKS NUMBER`. They are checked here, before the ranks and the number.

ghost use Rattle.std.specs.Prelude.{◌≡◌, ◌<◌, length, MatchOption, IfSome, None, Some};
ghost use Rattle.rank_set.specs.Runs.{IsRunInRange};
ghost use Rattle.text_lines.specs.Lines.{words};
ghost use Rattle.value_text.specs.UsualLines.{BeginsWithNumber, BeginsWithRun, BeginsWithValue, GivesRun, IsWindow};
ghost use Rattle.value_text.specs.Words.{value_words};

use crate::numbers::{cut_number, number_text};
use rank_set::RANK_LIMIT;
use text_lines::{is_word, next_word};

// A rank and the byte behind it have at most so many bytes, unless zeros stand in front.
const WINDOW: usize = 8;

/// RANKS and NUMBER, where the words of a line are `value RANKS NUMBER`.
pub fn value_words(line: &[u8]) -> Option<(&[u8], &[u8])>
    ensures { MatchOption result (value_words (words line.now) ≡ None) (
        λ pair. value_words (words line.now) ≡ Some (pair.0.now, pair.1.now)
        ) }
{
    let (word, rest) = next_word(line)?;
    let (ranks, rest) = next_word(rest)?;
    let (number, rest) = next_word(rest)?;
    if next_word(rest).is_some() || !is_word(word, b"value") {
        return None;
    }
    Some((ranks, number))
}

/// A run of ranks and the number that a line gives each of them.
#[derive(Debug, Clone, Copy)]
pub struct UsualValue {
    /// The first rank.
    pub first: u32,
    /// The last rank, which may be the first.
    pub last: u32,
    /// The number.
    pub number: i64,
}

// A run that a text begins with, and what is left behind the space that follows it.
#[derive(Clone, Copy)]
struct RunCut<'t> {
    first: u32,
    last: u32,
    rest: &'t [u8],
}

// The rank that a text begins with, where this byte ends it, and what is left behind the byte. None where the text
// begins otherwise.
fn cut_short(text: &[u8], end: u8) -> Option<(u32, &[u8])>
    ensures number { IfSome result (λ cut. BeginsWithNumber text.now cut.0 end cut.1.now) }
    ensures below_limit { IfSome result (λ cut. cut.0 < RANK_LIMIT) }
{
    let mut rank = 0;
    for (i, b) in text.iter().enumerate() {
        if !b.is_ascii_digit() {
            if *b != end || i == 0 {
                return None;
            }
            let (_, rest) = text.split_at(i + 1);
            return Some((rank, rest));
        }
        rank = 10 * rank + u32::from(*b - b'0');
        if rank >= RANK_LIMIT {
            return None;
        }
    }
    None
}

// The same of a text that begins with this window. Its length is known when this is compiled, so the loop becomes
// straight code.
#[inline(always)]
fn cut_in<'t>(window: &[u8; WINDOW], text: &'t [u8], end: u8) -> Option<(u32, &'t [u8])>
    requires { IsWindow 8 window.now text.now }
    ensures number { IfSome result (λ cut. BeginsWithNumber text.now cut.0 end cut.1.now) }
    ensures below_limit { IfSome result (λ cut. cut.0 < RANK_LIMIT) }
{
    let mut rank = 0;
    for (i, b) in window.iter().enumerate() {
        if !b.is_ascii_digit() {
            if *b != end || i == 0 || rank >= RANK_LIMIT {
                return None;
            }
            let (_, rest) = text.split_at(i + 1);
            return Some((rank, rest));
        }
        // for the proof: so few digits write less
        if rank >= 100_000_000 {
            return None;
        }
        rank = 10 * rank + u32::from(*b - b'0');
    }
    None
}

// The same of any text.
#[inline(always)]
fn cut_rank(text: &[u8], end: u8) -> Option<(u32, &[u8])>
    ensures number { IfSome result (λ cut. BeginsWithNumber text.now cut.0 end cut.1.now) }
    ensures below_limit { IfSome result (λ cut. cut.0 < RANK_LIMIT) }
{
    match text.split_first_chunk::<WINDOW>() {
        Some((window, _)) => cut_in(window, text, end),
        None => cut_short(text, end),
    }
}

// The run that a text begins with, `a` or `a-b`, and what is left behind the space that follows it. None where the
// text begins otherwise.
#[inline(always)]
fn cut_run(text: &[u8]) -> Option<RunCut<'_>>
    ensures run { IfSome result (λ cut. BeginsWithRun text.now cut.first cut.last cut.rest.now) }
    ensures in_range { IfSome result (λ cut. IsRunInRange cut.first cut.last) }
{
    if let Some((rank, rest)) = cut_rank(text, b' ') {
        return Some(RunCut {
            first: rank,
            last: rank,
            rest,
        });
    }
    let (first, rest) = cut_rank(text, b'-')?;
    let (last, rest) = cut_rank(rest, b' ')?;
    if last < first {
        return None;
    }
    Some(RunCut { first, last, rest })
}

/// What a line gives a run of ranks, where it has the usual form, read in one go: `value`, the run, as `a` or `a-b`,
/// and NUMBER, with one space between. None where the line has another form.
#[inline(always)]
pub fn usual_value(line: &[u8]) -> Option<UsualValue>
    ensures gives { IfSome result (λ v. GivesRun line.now v.first v.last v.number) }
    ensures in_range { IfSome result (λ v. IsRunInRange v.first v.last) }
{
    let (word, rest) = line.split_first_chunk::<6>()?;
    if *word != *b"value " {
        return None;
    }
    let cut = cut_run(rest)?;
    let number = number_text(cut.rest)?;
    Some(UsualValue {
        first: cut.first,
        last: cut.last,
        number,
    })
}

/// What the first line of a text gives a run of ranks, where it has the usual form and ends with a line feed alone,
/// and what is left behind it. It is read in one go, without a search for the line's end. None where the line has
/// another form.
#[inline(always)]
pub fn first_value(text: &[u8]) -> Option<(UsualValue, &[u8])>
    ensures value { IfSome result (λ cut. BeginsWithValue text.now cut.0.first cut.0.last cut.0.number
        cut.1.now) }
    ensures in_range { IfSome result (λ cut. IsRunInRange cut.0.first cut.0.last) }
    ensures shorter { IfSome result (λ cut. length cut.1.now < length text.now) }
{
    let (word, rest) = text.split_first_chunk::<6>()?;
    if *word != *b"value " {
        return None;
    }
    let cut = cut_run(rest)?;
    let (number, rest) = cut_number(cut.rest)?;
    let value = UsualValue {
        first: cut.first,
        last: cut.last,
        number,
    };
    Some((value, rest))
}
