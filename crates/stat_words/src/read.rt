//! From the words to the command that they ask for.
ghost use Rattle.std.specs.Prelude.{◌≡◌, IfOk, map, string_bytes};
ghost use Rattle.stat_words.specs.Modes.{rows_in};
ghost use Rattle.stat_words.specs.Outcomes.{IsReadAs, IsReadOrOutOfMemory};
ghost use Rattle.stat_words.specs.Words.{HasGoodArgument, IsInRanges, Reads, asked, asked_in, asked_of, with_good_argument};

use crate::modes::{Mode, given, mode_of};
use crate::values::{
    commands, file, files, form, report, seed, size, sums_report, view_report, workers,
};
use crate::words::{Command, Opt, WordFault, WordsError};
use clap::ArgMatches;
use std::alloc::Global;
use tree_view::{View, ViewError};

// What a mode makes of the options that it was given, before the argument of a view is tested.
fn command_in<'a>(mode: Mode, matches: &ArgMatches<'a>) -> Result<Command<'a>, WordFault>
    ensures asked { IsReadAs asked_of (asked_in mode (rows_in matches.now)) result }
    ensures ranges { IfOk result IsInRanges }
{
    match mode {
        Mode::Run => Ok(Command::Run {
            files: files(matches)?,
            workers: workers(matches, 4)?,
            report: report(matches)?,
        }),
        Mode::Sim => Ok(Command::Sim {
            files: files(matches)?,
            seed: seed(matches)?,
            report: report(matches)?,
        }),
        Mode::Replay => Ok(Command::Replay {
            files: files(matches)?,
            journal: file(matches, Opt::JournalIn)?,
            report: report(matches)?,
        }),
        Mode::Direct => Ok(Command::Direct {
            files: files(matches)?,
            workers: workers(matches, 1)?,
            form: form(matches)?,
        }),
        Mode::Gen => Ok(Command::Gen {
            seed: seed(matches)?,
            size: size(matches)?,
        }),
        Mode::Cast => Ok(Command::Cast {
            files: files(matches)?,
            seed: seed(matches)?,
            commands: commands(matches)?,
        }),
        Mode::Sums => Ok(Command::Sums {
            files: files(matches)?,
            seed: seed(matches)?,
            report: sums_report(matches)?,
        }),
        Mode::View => Ok(Command::View {
            files: files(matches)?,
            seed: seed(matches)?,
            report: view_report(matches)?,
        }),
        Mode::Frames => Ok(Command::Frames {
            capture: file(matches, Opt::Capture)?,
        }),
    }
}

// The command, if the argument of a view is one of such a view.
fn tested<'a>(alloc: Global, command: Command<'a>) -> Result<Command<'a>, WordsError>
    ensures reads { IsReadOrOutOfMemory asked_of (with_good_argument (asked_of command.entry)) result }
    ensures same { IfOk result (λ tested. tested ≡ command.entry) }
    ensures good { IfOk result HasGoodArgument }
{
    let Command::View { report, .. } = command else {
        return Ok(command);
    };
    match View::read(alloc, report.by, report.argument) {
        Ok(_) => Ok(command),
        Err(ViewError::BadArgument) => Err(WordsError::Fault(WordFault::Value(Opt::Arg))),
        Err(ViewError::OutOfMemory) => Err(WordsError::OutOfMemory),
    }
}

/// Reads the words of the command line: the mode, and then its options in any order, each at most once, as `--x v` or
/// `--x=v`.
///
/// The result is exact: the command that the words ask for, or their first fault; the one exception is running out of
/// memory. The mode is looked at first, then which options there are, and then the values, in the order of [`Opt`].
///
/// # Errors
///
/// - `NoMode`: there are no words.
/// - `UnknownMode`: the first word is not `run`, `sim`, `replay`, `direct`, `gen`, `cast`,
///   `sums`, `view` or `frames`.
/// - `Options`: a word `--`, an option that is unknown, repeated, abbreviated or missing, a missing value, or a stray
///   word.
/// - `Value`: a file's name that is empty or begins with `-`, a number that isn't 1 to 20 digits or is out of its
///   range, a report that is neither `text` nor `json`, nor, of a run, `frames`, a fold or a view by something else, or
///   an argument that is none of such a view.
/// - `OutOfMemory`.
#[tactic(auto, unfolding(crate::specs::Words::asked))]
pub fn read_words<'a>(alloc: Global, words: &'a [String]) -> Result<Command<'a>, WordsError>
    ensures reads { Reads (asked (map string_bytes words.entry.now)) result }
    ensures ranges { IfOk result IsInRanges }
    ensures argument { IfOk result HasGoodArgument }
{
    let [word, rest @ ..] = words else {
        return Err(WordsError::Fault(WordFault::NoMode));
    };
    let Some(mode) = mode_of(word.as_str()) else {
        return Err(WordsError::Fault(WordFault::UnknownMode));
    };
    let matches = given(alloc, mode, rest)?;
    match command_in(mode, &matches) {
        Ok(command) => tested(alloc, command),
        Err(fault) => Err(WordsError::Fault(fault)),
    }
}
