//! The values of the options, as they are read and tested.
ghost use Rattle.std.specs.Prelude.{◌≡◌, ◌≤◌, ◌^◌, ◌<◌, IfOk, IfSome, option_map};
ghost use Rattle.std.specs.Char.{is_ascii_digit};
ghost use Rattle.std.specs.List.{list_all};
ghost use Rattle.clap.specs.Words.{first_of};
ghost use Rattle.stat_words.specs.Modes.{rows_in, word_of};
ghost use Rattle.stat_words.specs.Outcomes.{IsReadAs};
ghost use Rattle.stat_words.specs.Values.{file_name as file_name_of, is_number as is_number_in, number_between as number_between_of, report_form as report_form_of, run_report as run_report_of, value_of};
ghost use Rattle.stat_words.specs.Words.{argument_in, by_in, commands_in, fold_in, form_in, names_in, names_of, run_report_in, seed_in, size_in, sums_asked, sums_report_in, view_asked, view_report_in, workers_in};

use crate::words::{Files, Opt, ReportForm, RunReport, SumsReport, ViewReport, WordFault};
use clap::ArgMatches;
use rank_sums::Fold;
use tree_view::ViewBy;

/// How many digits a number has at most.
const MAX_DIGITS: usize = 20;

// The word as a file's name: not empty, and not beginning with `-`.
fn file_name<'a>(word: &'a str) -> Option<&'a str>
    ensures { option_map (λ s. s.now) result ≡ file_name_of word.entry.now }
{
    match word.as_bytes() {
        [] | [b'-', ..] => None,
        _ => Some(word),
    }
}

// Whether each byte is a decimal digit.
fn are_digits(word: &[u8]) -> bool
    ensures { result ≡ list_all is_ascii_digit word.now }
{
    word.iter().all(|b| b.is_ascii_digit())
}

// Whether the word is 1 to 20 decimal digits.
fn is_number(word: &str) -> bool
    ensures { result ≡ is_number_in word.now }
{
    let digits = word.as_bytes();
    if digits.is_empty() || digits.len() > MAX_DIGITS {
        return false;
    }
    are_digits(digits)
}

// The number that the word writes, where it is one in this range.
fn number_between(word: &str, low: u64, high: u64) -> Option<u64>
    ensures value { result ≡ number_between_of low high word.now }
    ensures range { IfSome result (λ n. (low ≤ n) × (n ≤ high)) }
{
    if !is_number(word) {
        return None;
    }
    let Ok(number) = word.parse::<u64>() else {
        return None;
    };
    if low <= number && number <= high {
        Some(number)
    } else {
        None
    }
}

// The form of a report that the word names.
fn report_form(word: &str) -> Option<ReportForm>
    ensures { result ≡ report_form_of word.now }
{
    match word {
        "text" => Some(ReportForm::Text),
        "json" => Some(ReportForm::Json),
        _ => None,
    }
}

// What the word says is to be written of a run.
fn run_report(word: &str) -> Option<RunReport>
    ensures { result ≡ run_report_of word.now }
{
    match word {
        "text" => Some(RunReport::Releases(ReportForm::Text)),
        "json" => Some(RunReport::Releases(ReportForm::Json)),
        "frames" => Some(RunReport::Frames),
        _ => None,
    }
}

// The value that an option is given.
fn value<'a>(matches: &ArgMatches<'a>, option: Opt) -> Option<&'a str>
    ensures { option_map (λ s. s.now) result ≡ first_of (word_of option) (rows_in matches.now) }
{
    matches.get_str(option.word())
}

/// The name of the file of a required option.
pub(crate) fn file<'a>(matches: &ArgMatches<'a>, option: Opt) -> Result<&'a str, WordFault>
    ensures { IsReadAs (λ s. s.now) (value_of option file_name_of (rows_in matches.now)) result }
{
    let Some(word) = value(matches, option) else {
        return Err(WordFault::Options);
    };
    file_name(word).ok_or(WordFault::Value(option))
}

/// The names of the three files.
pub(crate) fn files<'a>(matches: &ArgMatches<'a>) -> Result<Files<'a>, WordFault>
    ensures { IsReadAs names_of (names_in (rows_in matches.now)) result }
{
    Ok(Files {
        topology: file(matches, Opt::Topology)?,
        samples: file(matches, Opt::Samples)?,
        script: file(matches, Opt::Script)?,
    })
}

/// The number of workers, 1 to 32, and `default` where none is given.
pub(crate) fn workers<'a>(matches: &ArgMatches<'a>, default: u8) -> Result<u8, WordFault>
    requires default { (1 ≤ default) × (default ≤ 32) }
    ensures value { result ≡ workers_in default (rows_in matches.now) }
    ensures range { IfOk result (λ n. (1 ≤ n) × (n ≤ 32)) }
{
    let Some(word) = value(matches, Opt::Workers) else {
        return Ok(default);
    };
    let Some(workers) = number_between(word, 1, 32) else {
        return Err(WordFault::Value(Opt::Workers));
    };
    Ok(workers as u8)
}

/// The seed.
pub(crate) fn seed<'a>(matches: &ArgMatches<'a>) -> Result<u64, WordFault>
    ensures { result ≡ seed_in (rows_in matches.now) }
{
    match value(matches, Opt::Seed) {
        Some(word) => number_between(word, 0, u64::MAX).ok_or(WordFault::Value(Opt::Seed)),
        None => Ok(0),
    }
}

/// The size of a generated job, 1 to 256.
pub(crate) fn size<'a>(matches: &ArgMatches<'a>) -> Result<u16, WordFault>
    ensures value { result ≡ size_in (rows_in matches.now) }
    ensures range { IfOk result (λ n. (1 ≤ n) × (n ≤ 256)) }
{
    let Some(word) = value(matches, Opt::Size) else {
        return Err(WordFault::Options);
    };
    let Some(size) = number_between(word, 1, 256) else {
        return Err(WordFault::Value(Opt::Size));
    };
    Ok(size as u16)
}

/// The number of commands, 1 to 1,000.
pub(crate) fn commands<'a>(matches: &ArgMatches<'a>) -> Result<u32, WordFault>
    ensures value { result ≡ commands_in (rows_in matches.now) }
    ensures range { IfOk result (λ n. (1 ≤ n) × (n ≤ 1000)) }
{
    let Some(word) = value(matches, Opt::Commands) else {
        return Err(WordFault::Options);
    };
    let Some(commands) = number_between(word, 1, 1_000) else {
        return Err(WordFault::Value(Opt::Commands));
    };
    Ok(commands as u32)
}

/// The form of the report.
pub(crate) fn form<'a>(matches: &ArgMatches<'a>) -> Result<ReportForm, WordFault>
    ensures { result ≡ form_in (rows_in matches.now) }
{
    match value(matches, Opt::Report) {
        Some(word) => report_form(word).ok_or(WordFault::Value(Opt::Report)),
        None => Ok(ReportForm::Text),
    }
}

/// What is written of a run.
pub(crate) fn report<'a>(matches: &ArgMatches<'a>) -> Result<RunReport, WordFault>
    ensures { result ≡ run_report_in (rows_in matches.now) }
{
    match value(matches, Opt::Report) {
        Some(word) => run_report(word).ok_or(WordFault::Value(Opt::Report)),
        None => Ok(RunReport::Releases(ReportForm::Text)),
    }
}

// What is made of the ranks' numbers.
fn fold<'a>(matches: &ArgMatches<'a>) -> Result<Fold, WordFault>
    ensures { result ≡ fold_in (rows_in matches.now) }
{
    let Some(word) = value(matches, Opt::Fold) else {
        return Err(WordFault::Options);
    };
    Fold::read(word).ok_or(WordFault::Value(Opt::Fold))
}

/// What is written of sums.
pub(crate) fn sums_report<'a>(matches: &ArgMatches<'a>) -> Result<SumsReport<'a>, WordFault>
    ensures { IsReadAs sums_asked (sums_report_in (rows_in matches.now)) result }
{
    Ok(SumsReport {
        form: form(matches)?,
        values: file(matches, Opt::Values)?,
        fold: fold(matches)?,
    })
}

// By what a tree is viewed.
fn view_by<'a>(matches: &ArgMatches<'a>) -> Result<ViewBy, WordFault>
    ensures { result ≡ by_in (rows_in matches.now) }
{
    let Some(word) = value(matches, Opt::By) else {
        return Err(WordFault::Options);
    };
    ViewBy::read(word).ok_or(WordFault::Value(Opt::By))
}

// The argument of a view, as it was given.
fn argument<'a>(matches: &ArgMatches<'a>) -> Result<&'a str, WordFault>
    ensures { IsReadAs (λ s. s.now) (argument_in (rows_in matches.now)) result }
{
    value(matches, Opt::Arg).ok_or(WordFault::Options)
}

/// What is written of a view, before its argument is tested.
pub(crate) fn view_report<'a>(matches: &ArgMatches<'a>) -> Result<ViewReport<'a>, WordFault>
    ensures { IsReadAs view_asked (view_report_in (rows_in matches.now)) result }
{
    Ok(ViewReport {
        form: form(matches)?,
        by: view_by(matches)?,
        argument: argument(matches)?,
    })
}
