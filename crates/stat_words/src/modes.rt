//! The modes, and the options that `clap` reads for each.
ghost use Rattle.std.specs.Prelude.{◌≡◌, IfOk, true, map, string_bytes};
ghost use Rattle.clap.specs.Words.{app_of, is_simple, is_simple_and_free, with_rule};
ghost use Rattle.stat_words.specs.Modes.{bare_command as bare_app, command_of as app_of_mode, file_options, given as given_by, has_dashes as has_dashes_in, mode_of as mode_of_word, rows_in, rule_for, seed_options, taken, with_rules, worker_options};
ghost use Rattle.stat_words.specs.Outcomes.{IsReadOrOutOfMemory};

use crate::words::{Opt, WordFault, WordsError};
use clap::error::ErrorKind;
use clap::{Arg, ArgAction, ArgMatches, Command};
use std::alloc::{AllocError, Global};

/// A mode of the command line.
#[derive(Clone, Copy, Debug, PartialEq, Eq)]
pub(crate) enum Mode {
    /// A run.
    Run,
    /// A run in an order that is drawn from a seed.
    Sim,
    /// The run that a journal tells of.
    Replay,
    /// The report computed from the samples at once.
    Direct,
    /// A generated job.
    Gen,
    /// Commands down to the daemons.
    Cast,
    /// What the numbers of the ranks come to, at each release of a run.
    Sums,
    /// A view of each release of a run.
    View,
    /// The frames of a capture.
    Frames,
}

/// The mode of a word.
pub(crate) fn mode_of(word: &str) -> Option<Mode>
    ensures { result ≡ mode_of_word word.now }
{
    match word {
        "run" => Some(Mode::Run),
        "sim" => Some(Mode::Sim),
        "replay" => Some(Mode::Replay),
        "direct" => Some(Mode::Direct),
        "gen" => Some(Mode::Gen),
        "cast" => Some(Mode::Cast),
        "sums" => Some(Mode::Sums),
        "view" => Some(Mode::View),
        "frames" => Some(Mode::Frames),
        _ => None,
    }
}

// A command with no option yet, and no help.
fn bare_command<'a>(alloc: Global) -> Command<'a>
    ensures { app_of result ≡ bare_app }
{
    Command::new(alloc, "stat")
        .no_binary_name(true)
        .disable_help_flag(true)
}

// The command with one more option, of one value.
fn with_option<'a>(
    alloc: Global,
    command: Command<'a>,
    option: Opt,
    required: bool,
) -> Result<Command<'a>, AllocError>
    ensures { IfOk result (λ r. app_of r ≡ with_rule (app_of command.entry) (rule_for (option, required))) }
{
    let word: &'a str = option.word();
    let arg = Arg::new(alloc, word)
        .long(word)
        .action(ArgAction::Set)
        .required(required);
    command.arg(arg)
}

// The command with the options of the three files.
fn with_files<'a>(alloc: Global) -> Result<Command<'a>, AllocError>
    ensures { IfOk result (λ command. app_of command ≡ with_rules bare_app file_options) }
{
    let command = bare_command(alloc);
    let command = with_option(alloc, command, Opt::Topology, true)?;
    let command = with_option(alloc, command, Opt::Samples, true)?;
    with_option(alloc, command, Opt::Script, true)
}

// The command with the options of what workers do.
fn with_workers<'a>(alloc: Global) -> Result<Command<'a>, AllocError>
    ensures { IfOk result (λ command. app_of command ≡ with_rules bare_app worker_options) }
{
    let command = with_files(alloc)?;
    let command = with_option(alloc, command, Opt::Workers, false)?;
    with_option(alloc, command, Opt::Report, false)
}

// The command with the options of a run whose events a seed picks.
fn with_seed<'a>(alloc: Global) -> Result<Command<'a>, AllocError>
    ensures { IfOk result (λ command. app_of command ≡ with_rules bare_app seed_options) }
{
    let command = with_files(alloc)?;
    let command = with_option(alloc, command, Opt::Seed, false)?;
    with_option(alloc, command, Opt::Report, false)
}

// The command of a mode's options.
fn command_of<'a>(alloc: Global, mode: Mode) -> Result<Command<'a>, AllocError>
    ensures { IfOk result (λ command. app_of command ≡ app_of_mode mode) }
{
    match mode {
        Mode::Run | Mode::Direct => with_workers(alloc),
        Mode::Sim => with_seed(alloc),
        Mode::Replay => {
            let command = with_files(alloc)?;
            let command = with_option(alloc, command, Opt::JournalIn, true)?;
            with_option(alloc, command, Opt::Report, false)
        }
        Mode::Gen => {
            let command = with_option(alloc, bare_command(alloc), Opt::Seed, false)?;
            with_option(alloc, command, Opt::Size, true)
        }
        Mode::Cast => {
            let command = with_files(alloc)?;
            let command = with_option(alloc, command, Opt::Seed, false)?;
            with_option(alloc, command, Opt::Commands, true)
        }
        Mode::Sums => {
            let command = with_seed(alloc)?;
            let command = with_option(alloc, command, Opt::Values, true)?;
            with_option(alloc, command, Opt::Fold, true)
        }
        Mode::View => {
            let command = with_seed(alloc)?;
            let command = with_option(alloc, command, Opt::By, true)?;
            with_option(alloc, command, Opt::Arg, true)
        }
        Mode::Frames => with_option(alloc, bare_command(alloc), Opt::Capture, true),
    }
}

// Whether a word is `--`, which clap takes.
fn has_dashes(words: &[String]) -> bool
    ensures { result ≡ has_dashes_in (map string_bytes words.now) }
{
    for word in words {
        if word.as_str() == "--" {
            return true;
        }
    }
    false
}

// The options that the words give to a simple command.
fn parse<'a>(command: Command<'a>, words: &'a [String]) -> Result<ArgMatches<'a>, WordsError>
    requires simple { is_simple (app_of command) ≡ true }
    requires free { is_simple_and_free (app_of command) ≡ true }
    ensures { IsReadOrOutOfMemory rows_in (taken (app_of command.entry) (map string_bytes words.entry.now)) result }
{
    match command.try_get_matches_from(words) {
        Ok(matches) => Ok(matches),
        Err(error) if error.kind() == ErrorKind::OutOfMemory => Err(WordsError::OutOfMemory),
        Err(_) => Err(WordsError::Fault(WordFault::Options)),
    }
}

/// The options that the words after a mode give.
pub(crate) fn given<'a>(
    alloc: Global,
    mode: Mode,
    words: &'a [String],
) -> Result<ArgMatches<'a>, WordsError>
    ensures { IsReadOrOutOfMemory rows_in (given_by mode (map string_bytes words.entry.now)) result }
{
    if has_dashes(words) {
        return Err(WordsError::Fault(WordFault::Options));
    }
    let Ok(command) = command_of(alloc, mode) else {
        return Err(WordsError::OutOfMemory);
    };
    parse(command, words)
}
