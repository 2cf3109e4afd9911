//! The words of a line of samples: `daemon NAME RANKS` or `stack TIME RANKS PATH`. They are checked here, before any
//! name, number or path in them.

ghost use Rattle.std.specs.Prelude.{◌≡◌, ◌<◌, ℕ, IfOk, IfErr, OnOk, IfSome, Ok, Err};
ghost use Rattle.text_lines.specs.Lines.{words, after_word};
ghost use Rattle.std.specs.Str.{IsUtf8};
ghost use Rattle.sample_text.specs.Words.{Nothing, daemon_words, path_in, stack_words, directive, read_line};
ghost use Rattle.sample_text.specs.LineViews.{line_view, SamplesOneRank, BeginsWithNumber, BeginsOneRank};

use rank_set::RANK_LIMIT;
use stat_plan::TIME_LIMIT;
use text_lines::{Reason, TextError, after_blanks, cut_word, is_word, next_word, says_nothing};

// A time or a rank and the space behind it have at most so many bytes, unless zeros stand in front.
const WINDOW: usize = 8;

/// What a line says.
#[derive(Debug, Clone, Copy)]
pub enum Line<'t> {
    /// Nothing: a comment, or no word.
    Nothing,
    /// `daemon NAME RANKS`
    Daemon {
        name: &'t [u8],
        ranks: &'t [u8],
    },
    /// `stack TIME RANKS PATH`
    Stack {
        time: &'t [u8],
        ranks: &'t [u8],
        path: &'t str,
    },
}

// What follows the word `daemon`.
fn daemon_words(line_number: u64, rest: &[u8]) -> Result<Line<'_>, TextError>
    ensures ok { IfOk result (λ view. daemon_words line_number (words rest.now) ≡ Ok (line_view view)) }
    ensures err { IfErr result (λ e. daemon_words line_number (words rest.now) ≡ Err e) }
{
    let Some((name, rest)) = next_word(rest) else {
        return Err(TextError::bad(line_number, Reason::BadDirective));
    };
    let Some((ranks, rest)) = next_word(rest) else {
        return Err(TextError::bad(line_number, Reason::BadDirective));
    };
    if next_word(rest).is_some() {
        return Err(TextError::bad(line_number, Reason::BadDirective));
    }
    Ok(Line::Daemon { name, ranks })
}

// The end of a line, which begins with PATH. The line is UTF-8, so its end is not tested again.
fn path_in<'t>(line: &'t str, end: &[u8]) -> &'t str
    requires { end.now ≡ path_in (after_word line.now) }
    ensures { result.now ≡ end.now }
{
    let (_, path) = line.split_at(line.len() - end.len());
    path
}

// What follows the word `stack` in a line.
fn stack_words<'t>(line_number: u64, line: &'t str, rest: &'t [u8]) -> Result<Line<'t>, TextError>
    requires { rest.now ≡ after_word line.now }
    ensures ok { IfOk result (λ view. stack_words line_number rest.now (words rest.now) ≡ Ok (line_view view)) }
    ensures err { IfErr result (λ e. stack_words line_number rest.now (words rest.now) ≡ Err e) }
{
    let Some((time, rest)) = next_word(rest) else {
        return Err(TextError::bad(line_number, Reason::BadDirective));
    };
    let Some((ranks, rest)) = next_word(rest) else {
        return Err(TextError::bad(line_number, Reason::BadDirective));
    };
    let end = after_blanks(rest);
    if end.is_empty() {
        return Err(TextError::bad(line_number, Reason::BadDirective));
    }
    let path = path_in(line, end);
    Ok(Line::Stack { time, ranks, path })
}

// A line that says something.
fn directive(line_number: u64, line: &str) -> Result<Line<'_>, TextError>
    ensures ok { IfOk result (λ view. directive line_number line.now (words line.now) ≡ Ok (line_view view)) }
    ensures err { IfErr result (λ e. directive line_number line.now (words line.now) ≡ Err e) }
{
    let Some((word, rest)) = next_word(line.as_bytes()) else {
        return Err(TextError::bad(line_number, Reason::BadDirective));
    };
    if is_word(word, b"daemon") {
        daemon_words(line_number, rest)
    } else if is_word(word, b"stack") {
        stack_words(line_number, line, rest)
    } else {
        Err(TextError::bad(line_number, Reason::BadDirective))
    }
}

// A line of samples in its usual form, read in one go: `stack`, TIME and RANKS with one blank behind each, and PATH.
// None where the line has another form.
fn usual_line(line: &str) -> Option<Line<'_>>
    ensures { IfSome result (λ view. (n : ℕ) → read_line n line.now ≡ Ok (line_view view)) }
{
    let rest = line.as_bytes().strip_prefix(b"stack ")?;
    let (time, rest) = cut_word(rest)?;
    let (ranks, rest) = cut_word(rest)?;
    let text = after_blanks(rest);
    if text.is_empty() {
        return None;
    }
    let path = path_in(line, text);
    Some(Line::Stack { time, ranks, path })
}

/// A sample of one rank.
#[derive(Debug, Clone, Copy)]
pub struct OneRank<'t> {
    pub time: u32,
    pub rank: u32,
    /// PATH, as it is written.
    pub path: &'t str,
}

/// The start of a line of samples that lists one rank.
#[derive(Debug, Clone, Copy)]
pub struct OneRankStart<'t> {
    pub time: u32,
    pub rank: u32,
    /// What is left of the text behind the start: PATH, and whatever follows the line.
    pub rest: &'t str,
}

// The number that a text begins with, and what is left behind the space that follows it. None where the text begins
// otherwise, where that space is not within the window, and where the text is shorter than the window. The window's
// length is known when this is compiled, so its loop becomes straight code.
#[inline(always)]
fn short_number(text: &[u8]) -> Option<(u32, &[u8])>
    ensures { IfSome result (λ cut. BeginsWithNumber text.now cut.0 cut.1.now) }
{
    let (window, _) = text.split_first_chunk::<WINDOW>()?;
    let mut number = 0;
    for (i, b) in window.iter().enumerate() {
        if !b.is_ascii_digit() {
            if *b != b' ' || i == 0 {
                return None;
            }
            let (_, rest) = text.split_at(i + 1);
            return Some((number, rest));
        }
        // for the proof: so few digits write less
        if number >= 100_000_000 {
            return None;
        }
        number = 10 * number + u32::from(*b - b'0');
    }
    None
}

/// The usual start of a line of samples that lists one rank: `stack`, TIME and the rank with one space behind each, and
/// then a byte that is no blank. None where the text begins otherwise.
#[inline(always)]
pub fn one_rank_start(text: &str) -> Option<OneRankStart<'_>>
    ensures sample { IfSome result (λ start. BeginsOneRank text.now start.time start.rank start.rest.now) }
    ensures below_limit { IfSome result (λ start. start.rank < RANK_LIMIT) }
{
    let (word, rest) = text.as_bytes().split_first_chunk::<6>()?;
    if *word != *b"stack " {
        return None;
    }
    let (time, rest) = short_number(rest)?;
    let (rank, rest) = short_number(rest)?;
    let (b, _) = rest.split_first()?;
    if time > TIME_LIMIT || rank >= RANK_LIMIT || *b == b' ' || *b == b'\t' {
        return None;
    }
    let rest = path_in(text, rest);
    Some(OneRankStart { time, rank, rest })
}

/// A line of samples that lists one rank, in its usual form, read in one go: `stack`, TIME and the rank with one blank
/// behind each, and PATH. None where the line has another form.
pub fn one_rank_line(line: &str) -> Option<OneRank<'_>>
    ensures sample { IfSome result (λ one. SamplesOneRank line.now one.time one.rank one.path.now) }
    ensures below_limit { IfSome result (λ one. one.rank < RANK_LIMIT) }
{
    let start = one_rank_start(line)?;
    Some(OneRank {
        time: start.time,
        rank: start.rank,
        path: start.rest,
    })
}

/// What a line of UTF-8 says, or why it is not a line of samples.
pub fn read_line(line_number: u64, line: &str) -> Result<Line<'_>, TextError>
    ensures ok { IfOk result (λ view. read_line line_number line.now ≡ Ok (line_view view)) }
    ensures err { IfErr result (λ e. read_line line_number line.now ≡ Err e) }
{
    if let Some(usual) = usual_line(line) {
        return Ok(usual);
    }
    if says_nothing(line.as_bytes()) {
        return Ok(Line::Nothing);
    }
    directive(line_number, line)
}

/// A line that is not UTF-8: it says nothing, or is refused.
pub fn read_other_line(line_number: u64, line: &[u8]) -> Result<(), TextError>
    requires { ¬ (IsUtf8 line.now) }
    ensures ok { OnOk result (read_line line_number line.now ≡ Ok Nothing) }
    ensures err { IfErr result (λ e. read_line line_number line.now ≡ Err e) }
{
    if says_nothing(line) {
        Ok(())
    } else {
        Err(TextError::bad(line_number, Reason::NotUtf8))
    }
}
