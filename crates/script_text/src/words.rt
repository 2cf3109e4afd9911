//! The words of a script's lines. The fixed words of a line and the number of its words are checked here, before any
//! number or name in it.

ghost use Rattle.std.specs.Prelude.{◌≡◌, ◌<◌, ◌∷◌, length, IfNone, IfSome, option_map, codes, ◌&&◌};
ghost use Rattle.std.specs.Str.{bytes_eq};
ghost use Rattle.text_lines.specs.Lines.{words};
ghost use Rattle.script_text.specs.Words.{are_names, after_by, after_grain, after_mode, after_samples, grain_of, stream_words, lose_words};
ghost use Rattle.script_text.specs.ParserViews.{mode_view, five_view, seen_view, stream_view, lose_view};

use overlay_setup::Grain;
use text_lines::{is_word, next_word};

/// A stream's mode, as it is written.
#[derive(Debug, Clone, Copy)]
pub enum ModeText<'t> {
    /// `wait-for-all`
    WaitForAll,
    /// `time-out` and this word
    TimeOut(&'t [u8]),
    /// `dont-wait`
    DontWait,
}

/// The words of a stream line that are not fixed.
#[derive(Debug, Clone, Copy)]
pub struct StreamLine<'t> {
    pub number: &'t [u8],
    pub mode: ModeText<'t>,
    pub waves: &'t [u8],
    pub samples: &'t [u8],
    pub grain: Grain,
    /// All that stands after `on`.
    pub names: &'t [u8],
}

/// The words of a lose line that are not fixed.
#[derive(Debug, Clone, Copy)]
pub struct LoseLine<'t> {
    pub name: &'t [u8],
    pub after: &'t [u8],
    pub keep: &'t [u8],
}

// The first five words of a line, and what is left after them.
#[derive(Debug, Clone, Copy)]
struct FiveWords<'t> {
    first: &'t [u8],
    second: &'t [u8],
    third: &'t [u8],
    fourth: &'t [u8],
    fifth: &'t [u8],
    rest: &'t [u8],
}

// The first five words of a line; none where there are fewer.
fn five_words(line: &[u8]) -> Option<FiveWords<'_>>
    ensures fewer { IfNone result (length (words line.now) < 5) }
    ensures words { IfSome result (λ five. words line.now ≡ five_view five) }
{
    let (first, rest) = next_word(line)?;
    let (second, rest) = next_word(rest)?;
    let (third, rest) = next_word(rest)?;
    let (fourth, rest) = next_word(rest)?;
    let (fifth, rest) = next_word(rest)?;
    Some(FiveWords {
        first,
        second,
        third,
        fourth,
        fifth,
        rest,
    })
}

// Whether these words may stand after `on`: one or more, and nothing after `all` where that is the first.
fn are_names(line: &[u8]) -> bool
    ensures { result ≡ are_names (words line.now) }
{
    match next_word(line) {
        Some((name, rest)) => !is_word(name, b"all") || next_word(rest).is_none(),
        None => false,
    }
}

// How a stream sees paths, and all that stands after `on`.
#[derive(Debug, Clone, Copy)]
struct SeenLine<'t> {
    grain: Grain,
    names: &'t [u8],
}

// Whether a word is `on`, and names follow it.
fn is_on(word: &[u8], names: &[u8]) -> bool
    ensures { result ≡ (bytes_eq word.now (codes "on") && are_names (words names.now)) }
{
    is_word(word, b"on") && are_names(names)
}

// A stream line from `on` on, where the stream has this grain.
fn after_grain(grain: Grain, line: &[u8]) -> Option<SeenLine<'_>>
    ensures { option_map seen_view result ≡ after_grain grain (words line.now) }
{
    let (on, names) = next_word(line)?;
    if !is_on(on, names) {
        return None;
    }
    Some(SeenLine { grain, names })
}

// A grain as it is written.
#[tactic(auto, unfolding(crate::specs::Words::grain_of))]
fn grain_of(word: &[u8]) -> Option<Grain>
    ensures { result ≡ grain_of word.now }
{
    if is_word(word, b"line") {
        return Some(Grain::Line);
    }
    if is_word(word, b"function") {
        return Some(Grain::Function);
    }
    None
}

// A stream line from the word after `by` on.
fn after_by(line: &[u8]) -> Option<SeenLine<'_>>
    ensures { option_map seen_view result ≡ after_by (words line.now) }
{
    let (word, rest) = next_word(line)?;
    let grain = grain_of(word)?;
    after_grain(grain, rest)
}

// A stream line from the word after the number of samples on; without `by` the stream is by line.
fn after_samples(line: &[u8]) -> Option<SeenLine<'_>>
    ensures { option_map seen_view result ≡ after_samples (words line.now) }
{
    let (word, rest) = next_word(line)?;
    if is_word(word, b"by") {
        return after_by(rest);
    }
    after_grain(Grain::Line, line)
}

// Whether the fixed words of a lose line stand in their places after the name.
fn is_lose_end(five: &FiveWords<'_>) -> bool
    ensures { result ≡ (
        bytes_eq five.now.second.now (codes "after") && bytes_eq five.now.fourth.now (codes "keep")
        ) }
{
    is_word(five.second, b"after") && is_word(five.fourth, b"keep")
}

// Whether these are the fixed words before the number of waves and before that of samples.
fn are_fixed(waves: &[u8], samples: &[u8]) -> bool
    ensures { result ≡ (bytes_eq waves.now (codes "waves") && bytes_eq samples.now (codes "samples")) }
{
    is_word(waves, b"waves") && is_word(samples, b"samples")
}

// The words of a stream line, of which these stand after the mode.
fn after_mode<'t>(number: &'t [u8], mode: ModeText<'t>, line: &'t [u8]) -> Option<StreamLine<'t>>
    ensures { option_map stream_view result ≡ after_mode number.now (mode_view mode.entry) (words line.now) }
{
    let (waves_word, rest) = next_word(line)?;
    let (waves, rest) = next_word(rest)?;
    let (samples_word, rest) = next_word(rest)?;
    let (samples, rest) = next_word(rest)?;
    if !are_fixed(waves_word, samples_word) {
        return None;
    }
    let seen = after_samples(rest)?;
    Some(StreamLine {
        number,
        mode,
        waves,
        samples,
        grain: seen.grain,
        names: seen.names,
    })
}

/// The words of a stream line, of which these stand after `stream`; none where the line is no stream line.
pub fn stream_words(line: &[u8]) -> Option<StreamLine<'_>>
    ensures { option_map stream_view result ≡ stream_words (words line.now) }
{
    let (number, rest) = next_word(line)?;
    let (mode, rest) = next_word(rest)?;
    if is_word(mode, b"wait-for-all") {
        return after_mode(number, ModeText::WaitForAll, rest);
    }
    if is_word(mode, b"time-out") {
        let (ticks, rest) = next_word(rest)?;
        return after_mode(number, ModeText::TimeOut(ticks), rest);
    }
    if is_word(mode, b"dont-wait") {
        return after_mode(number, ModeText::DontWait, rest);
    }
    None
}

/// The words of a lose line, of which these stand after `lose`; none where the line is no lose line.
pub fn lose_words(line: &[u8]) -> Option<LoseLine<'_>>
    ensures { option_map lose_view result ≡ lose_words (words line.now) }
{
    let five = five_words(line)?;
    if next_word(five.rest).is_some() {
        return None;
    }
    if !is_lose_end(&five) {
        return None;
    }
    Some(LoseLine {
        name: five.first,
        after: five.third,
        keep: five.fifth,
    })
}
