//! From words and files to a report and a journal.
ghost use Rattle.std.specs.Prelude.{◌≡◌, [], Ok, IfErr, IfOk};
ghost use Rattle.stat_words.specs.Words.{HasGoodArgument, IsInRanges, asked_of};
ghost use Rattle.stat_desk.specs.Change.{change};
ghost use Rattle.stat_tool.specs.Call.{Answered, AreAllRead, HasWritten, IsDetermined, asked_by};
ghost use Rattle.stat_tool.specs.Call.{Prepared, Prevented, Written, WritesNoJournal};
ghost use Rattle.job_files.specs.Files.{files_of, names_in};
ghost use Rattle.stat_tool.specs.Views.{output_view};

use crate::modes::{
    prepare_cast, prepare_direct, prepare_frames, prepare_gen, prepare_replay, prepare_run,
    prepare_sim, prepare_sums, prepare_view,
};
use crate::output::{Host, Output};
use job_files::{Outcome, Status, Target};
use overlay_event::{Gate, Journal};
use prefix_tree::PrefixTree;
use stat_desk::{Desk, Sink, write_all_to};
use stat_words::{Command, WordsError, read_words};
use std::alloc::Global;
use std::sync::Wait;
use std::thread::Threads;

/// Does what the words ask for: reads the files that they name, runs the overlay on their samples, and writes the
/// report, or the frames that went over the overlay's links, to `out` and the journal to `journal`. `T` is how the
/// overlay keeps its trees. A run's events are done by at most as many threads of `rt` as its words say, and each
/// passes the gate; a small job has one thread, where the gate never waits. A direct merge is made by at most as many
/// threads, and its parts pass the gate where there is more than one. The same threads write the releases. No other
/// call makes a thread or passes the gate.
///
/// The files are read each once, in the order topology, samples, script, journal or values, and each is tested before
/// the next is asked for; a capture is read alone. The report and the journal's text are built whole before their
/// first byte is written. What else was made for them stays allocated, for the system to take back when the program
/// ends.
///
/// `answered` has the headline: where the status is Done, the files lead to a task, and the journal and the report are
/// an output of it, `HasOutput`. The bytes of the files are those that the desk's reads gave, each file in its turn,
/// `HasRead`, and the sinks took just those of the output. Every other status has its cause there, too.
pub fn stat<R: Threads + Wait + Sync, T: PrefixTree, D: Desk, O: Sink, J: Sink, G: Gate>(
    rt: &R,
    alloc: Global,
    words: &[String],
    desk: &mut D,
    out: &mut O,
    journal: &mut J,
    gate: &G,
) -> Outcome
    ensures answered { Answered (asked_by words.now) (change D.seen desk.old desk.new)
        (change O.seen out.old out.new) (change J.seen journal.old journal.new) result.journal result.status }
    ensures determined { IsDetermined (asked_by words.now) (change D.seen desk.old desk.new)
        (change O.seen out.old out.new) (change J.seen journal.old journal.new) result.status }
    ensures all_read { IfOk (asked_by words.now) (λ command. HasWritten result.status
        → AreAllRead (names_in (files_of command)) (change D.seen desk.old desk.new)) }
    ensures unread { IfErr (asked_by words.now) (λ fault. desk.new ≡ desk.old) }
    ensures untouched { ¬ HasWritten result.status → (out.new ≡ out.old) × (journal.new ≡ journal.old) }
    ensures journal { ¬ HasWritten result.status → result.journal ≡ [] }
    ensures kept { IfOk (asked_by words.now) (λ command. WritesNoJournal command → journal.new ≡ journal.old) }
    ensures report_first { result.status ≡ Status.SinkFault Target.Report → journal.new ≡ journal.old }
{
    run::<R, T, D, O, J, G>(rt, alloc, words, desk, out, journal, gate)
}

// The call; `stat` derives from its answer what the texts determine.
fn run<R: Threads + Wait + Sync, T: PrefixTree, D: Desk, O: Sink, J: Sink, G: Gate>(
    rt: &R,
    alloc: Global,
    words: &[String],
    desk: &mut D,
    out: &mut O,
    journal: &mut J,
    gate: &G,
) -> Outcome
    ensures answered { Answered (asked_by words.now) (change D.seen desk.old desk.new)
        (change O.seen out.old out.new) (change J.seen journal.old journal.new) result.journal result.status }
    ensures all_read { IfOk (asked_by words.now) (λ command. HasWritten result.status
        → AreAllRead (names_in (files_of command)) (change D.seen desk.old desk.new)) }
    ensures unread { IfErr (asked_by words.now) (λ fault. desk.new ≡ desk.old) }
    ensures untouched { ¬ HasWritten result.status → (out.new ≡ out.old) × (journal.new ≡ journal.old) }
    ensures journal { ¬ HasWritten result.status → result.journal ≡ [] }
    ensures kept { IfOk (asked_by words.now) (λ command. WritesNoJournal command → journal.new ≡ journal.old) }
    ensures report_first { result.status ≡ Status.SinkFault Target.Report → journal.new ≡ journal.old }
{
    let command = match read_words(alloc, words) {
        Ok(command) => command,
        Err(WordsError::Fault(fault)) => return stopped(alloc, Status::BadWords(fault)),
        Err(WordsError::OutOfMemory) => return stopped(alloc, Status::OutOfMemory),
    };
    let host = Host { rt, alloc, gate };
    match prepare::<R, T, D, G>(&host, command, desk) {
        Ok(output) => deliver(output, out, journal),
        Err(status) => stopped(alloc, status),
    }
}

// The outcome of a call that stops before anything is written.
fn stopped(alloc: Global, status: Status) -> Outcome
    ensures status { result.status ≡ status }
    ensures journal { result.journal ≡ [] }
{
    Outcome {
        status,
        journal: Journal::new(alloc),
    }
}

// The output of what the words ask for, before anything is written.
fn prepare<R: Threads + Wait + Sync, T: PrefixTree, D: Desk, G: Gate>(
    host: &Host<'_, R, G>,
    command: Command<'_>,
    desk: &mut D,
) -> Result<Output, Status>
    requires ranges { IsInRanges command }
    requires argument { HasGoodArgument command }
    ensures ok { IfOk result (λ output. Prepared (asked_of command.entry)
        (change D.seen desk.old desk.new) (output_view output)) }
    ensures err { IfErr result (Prevented (asked_of command.entry)
        (change D.seen desk.old desk.new)) }
    ensures unwritten { IfOk result
        (λ output. WritesNoJournal (asked_of command.entry) → output.journal_text.items ≡ []) }
{
    let alloc = host.alloc;
    match command {
        Command::Run {
            files,
            workers,
            report,
        } => prepare_run::<R, T, D, G>(host, files, workers, report, desk),
        Command::Sim {
            files,
            seed,
            report,
        } => prepare_sim::<T, D>(alloc, files, seed, report, desk),
        Command::Replay {
            files,
            journal,
            report,
        } => prepare_replay::<T, D>(alloc, files, journal, report, desk),
        Command::Direct {
            files,
            workers,
            form,
        } => prepare_direct::<R, T, D, G>(host, files, workers, form, desk),
        Command::Gen { size, seed } => prepare_gen::<T, D>(alloc, size, seed, desk),
        Command::Cast {
            files,
            seed,
            commands,
        } => prepare_cast::<D>(alloc, files, seed, commands, desk),
        Command::Sums {
            files,
            seed,
            report,
        } => prepare_sums::<T, D>(alloc, files, seed, report, desk),
        Command::View {
            files,
            seed,
            report,
        } => prepare_view::<T, D>(alloc, files, seed, report, desk),
        Command::Frames { capture } => prepare_frames::<T, D>(alloc, capture, desk),
    }
}

// Writes the report, and then the journal.
fn deliver<O: Sink, J: Sink>(output: Output, out: &mut O, journal: &mut J) -> Outcome
    ensures written { Written (output_view output) (change O.seen out.old out.new)
        (change J.seen journal.old journal.new) result.status }
    ensures events { result.journal ≡ output.journal }
    ensures some { HasWritten result.status }
    ensures kept { output.journal_text.items ≡ [] → journal.new ≡ journal.old }
    ensures report_first { result.status ≡ Status.SinkFault Target.Report → journal.new ≡ journal.old }
{
    let status = if write_all_to(out, output.report.as_slice()).is_err() {
        Status::SinkFault(Target::Report)
    } else if write_all_to(journal, output.journal_text.as_slice()).is_err() {
        Status::SinkFault(Target::Journal)
    } else {
        match output.unfinished {
            None => Status::Done,
            Some(event) => Status::Unfinished(event),
        }
    };
    Outcome {
        status,
        journal: output.journal,
    }
}
