//! What the program does around the top call: it takes its words, uses the real files and standard output, and ends.
ghost use Rattle.std.specs.Prelude.{◌≡◌};
ghost use Rattle.std.specs.Process.{exit_status};
ghost use Rattle.stat_desk.specs.Change.{change};
ghost use Rattle.stat_tool.specs.Call.{asked_by};
ghost use Rattle.stat_tool.specs.Ending.{EndsAs, IsEnding, ended_with};
ghost use Rattle.job_files.specs.Status.{number_of, refusal_of_status};

use crate::call::stat;
use job_files::Status;
use overlay_event::{Gate, OpenGate};
use prefix_tree::PrefixTree;
use stat_desk::{Desk, FileDesk, FileSink, Sink, StdSink};
use stat_words::WordFault;
use std::alloc::Global;
use std::env;
use std::io::ErrorKind;
use std::process::ExitCode;
use std::rt::{Env, Files};
use std::sync::Wait;
use std::thread::Threads;

/// The file that a run writes its journal to.
const JOURNAL_NAME: &str = "stat.journal";

/// Where the line of a refusal is printed.
#[derive(Clone, Copy, Debug, PartialEq, Eq)]
pub enum RefusalLine {
    /// On standard error.
    Error,
    /// On standard output.
    Output,
}

/// How the program ends.
#[derive(Clone, Copy, Debug, PartialEq, Eq)]
pub struct Ending {
    /// The status that gets a line; none if all was done.
    pub refusal: Option<Status>,
    /// The exit status.
    pub number: u8,
}

/// How the program ends after a call with this status.
pub fn ending_of(status: Status) -> Ending
    ensures refusal { result.refusal ≡ refusal_of_status status }
    ensures number { result.number ≡ number_of status }
{
    let refusal = match status {
        Status::Done => None,
        refused => Some(refused),
    };
    Ending {
        refusal,
        number: status.number(),
    }
}

/// The call with these words, desk, sinks and gate, and how the program ends after it: with the line and the number of
/// just the status that the call answered.
pub fn run_words<R: Threads + Wait + Sync, T: PrefixTree, D: Desk, O: Sink, J: Sink, G: Gate>(
    rt: &R,
    alloc: Global,
    words: &[String],
    desk: &mut D,
    out: &mut O,
    journal: &mut J,
    gate: &G,
) -> Ending
    ensures answered { EndsAs (asked_by words.now) (change D.seen desk.old desk.new)
        (change O.seen out.old out.new) (change J.seen journal.old journal.new) result }
    ensures ending { IsEnding (ended_with result.refusal) result }
{
    let outcome = stat::<R, T, D, O, J, G>(rt, alloc, words, desk, out, journal, gate);
    ending_of(outcome.status)
}

/// The program: the call with its words, the real files, standard output, and a file `stat.journal` for the journal,
/// which is made when it is first written to. No event waits at the gate. Words of which one is not UTF-8 are bad
/// words. A refusal gets a line. That these are the words, the desk, the sinks and the gate, and what is printed, no
/// clause says.
pub fn run_program<
    T: PrefixTree,
    R: Env + Files + Print + Eprint + AllocGlobal + Threads + Wait + Sync,
>(rt: &R, line: RefusalLine) -> ExitCode {
    let ending = ending_of_words::<T, R>(rt);
    exit_with(rt, ending, line)
}

// Prints the line of a refusal, and gives the exit status.
fn exit_with<R: Print + Eprint>(rt: &R, ending: Ending, line: RefusalLine) -> ExitCode
    ensures { exit_status result ≡ ending.number }
{
    if let Some(status) = ending.refusal {
        let _ = match line {
            RefusalLine::Error => eprintln!(rt; "stat: {status}"),
            RefusalLine::Output => println!(rt; "stat: {status}"),
        };
    }
    ExitCode::from(ending.number)
}

// The status of a program whose words can't be had.
fn status_without_words(cause: ErrorKind) -> Status
    ensures memory { cause ≡ ErrorKind.OutOfMemory → result ≡ Status.OutOfMemory }
    ensures others { ¬ (cause ≡ ErrorKind.OutOfMemory) → result ≡ Status.BadWords WordFault.Options }
{
    match cause {
        ErrorKind::OutOfMemory => Status::OutOfMemory,
        _ => Status::BadWords(WordFault::Options),
    }
}

// How the program ends: its words, the real desk and the real sinks.
fn ending_of_words<T: PrefixTree, R: Env + Files + Print + AllocGlobal + Threads + Wait + Sync>(
    rt: &R,
) -> Ending {
    let alloc = rt.alloc();
    let args = match env::args(rt) {
        Ok(args) => args,
        Err(error) => return ending_of(status_without_words(error.kind())),
    };
    let Ok(words) = args.skip(1).collect::<Vec<String>>(alloc) else {
        return ending_of(Status::OutOfMemory);
    };
    let Ok(name) = String::from_str(alloc, JOURNAL_NAME) else {
        return ending_of(Status::OutOfMemory);
    };
    let mut desk = FileDesk::new(alloc, rt);
    let mut out = StdSink::new(rt);
    let mut journal = FileSink::new(rt, name);
    run_words::<R, T, _, _, _, _>(
        rt,
        alloc,
        words.as_slice(),
        &mut desk,
        &mut out,
        &mut journal,
        &OpenGate,
    )
}
