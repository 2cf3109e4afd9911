//! The outputs of the tasks: a journal, a report, and what is written of the journal.
ghost use Rattle.std.specs.Prelude.{◌≡◌, ◌≤◌, [], None, true, false, IfErr, IfOk, OnOk};
ghost use Rattle.front_end.specs.Report.{AreDistinct};
ghost use Rattle.journal_text.specs.Reading.{read_view};
ghost use Rattle.capture_text.specs.Captures.{capture_of};
ghost use Rattle.overlay_core.specs.Machine.{start};
ghost use Rattle.overlay_core.specs.Runs.{IsLegal};
ghost use Rattle.overlay_core.specs.TreeReleases.{AreNumberedInOrder, releases_view};
ghost use Rattle.overlay_net.specs.Nets.{AllHome, IsReachedBy};
ghost use Rattle.overlay_run.specs.Boards.{IsWholeRun};
ghost use Rattle.stat_tool.specs.Call.{IsCaptureRefusal, IsEventRefusal, IsJobRefusal};
ghost use Rattle.job_files.specs.Tasks.{CaptureTask, DirectTask, ReplayTask, RunTask, SimTask};
ghost use Rattle.job_files.specs.NextStep.{Does, by_capture, first_refused, replay_step};
ghost use Rattle.stat_tool.specs.Outputs.{HasOutput, HasRun, ReplaysAs};
ghost use Rattle.stat_tool.specs.Reports.{IsReportIn, IsWrittenIn, losses_of};
ghost use Rattle.job_files.specs.Status.{refusal_of_capture};
ghost use Rattle.stat_tool.specs.Views.{output_view};
ghost use Rattle.wide_report.specs.Pieces.{faults_in, losses_in};

use crate::size::{LARGE_DIRECT, workers_for};
use capture_text::{capture_text, captures_are_frames};
use frame_log::frame_log;
use front_end::{numbered_releases_are_distinct, report_json, report_text};
use job_files::Status;
use journal_text::{JournalRead, write_journal};
use overlay_core::Release;
use overlay_event::{Event, Gate, Journal};
use overlay_net::{Net, NetError};
use overlay_run::Ran;
use packet_frame::FrameError;
use prefix_tree::PrefixTree;
use stat_plan::Plan;
use stat_words::{ReportForm, RunReport};
use std::alloc::{AllocError, Global};
use std::mem;
use std::thread::Threads;
use wide_merge::{WideDirect, wide_direct};
use wide_report::{WideReport, wide_json, wide_text};

/// What a task has made.
#[derive(Drop)]
pub struct Output {
    /// The event that may come next, where a replayed journal ends early.
    pub unfinished: Option<Event>,
    /// The events, in the order in which they happened.
    pub journal: Journal,
    /// The text of the report.
    pub report: Vec<u8>,
    /// What is written to the sink of the journal: its text, or nothing.
    pub journal_text: Vec<u8>,
}

/// Leaves a value's memory to the system, which takes all memory back at once when the program ends. To give it back
/// piece by piece would cost a fiftieth of a run.
pub fn leave<X: Drop>(value: X) {
    mem::forget(value);
}

/// What a call works with.
#[derive(Drop)]
pub struct Host<'a, R: Threads + Sync, G: Gate> {
    /// What starts threads.
    pub rt: &'a R,
    /// Where everything is made.
    pub alloc: Global,
    /// The gate that events pass, and merges where there is more than one worker.
    pub gate: &'a G,
}

/// The output of a run, with a report that so many threads write.
pub fn run_output<R: Threads + Sync, T: PrefixTree, G: Gate>(
    host: &Host<'_, R, G>,
    plan: &Plan,
    ran: Ran<T>,
    workers: u32,
    wanted: RunReport,
) -> Result<Output, AllocError>
    requires { IsWholeRun plan.now ran.journal (releases_view T.tree ran.releases.items) }
    ensures { IfOk result (λ output. HasOutput (RunTask plan.now wanted) (output_view output)) }
{
    plan.invariant();
    let Ran { journal, releases } = ran;
    let lost = losses_of(host.alloc, &journal)?;
    let wide = WideReport {
        alloc: host.alloc,
        plan,
        shows_faults: true,
        lost: &lost,
        workers,
    };
    let report = run_text(host.rt, &wide, releases, &journal, wanted)?;
    let journal_text = write_journal(host.alloc, plan, &journal)?;
    Ok(Output {
        unfinished: None,
        journal,
        report,
        journal_text,
    })
}

// What is wanted of a run's journal with these releases: their report, or the frames that its events receive.
fn run_text<R: Threads + Sync, T: PrefixTree>(
    rt: &R,
    wide: &WideReport<'_>,
    releases: Vec<Release<T>>,
    journal: &Journal,
    wanted: RunReport,
) -> Result<Vec<u8>, AllocError>
    requires legal { IsLegal wide.now.plan.now journal.now }
    requires numbered { AreNumberedInOrder [] (releases_view T.tree releases.items) }
    requires shown { wide.now.shows_faults ≡ true }
    requires lost { wide.now.lost.now ≡ losses_of journal.now }
    ensures { IfOk result (λ text. IsWrittenIn wanted wide.now.plan.now (releases_view T.tree releases.items)
        journal.now text.items) }
{
    match wanted {
        RunReport::Releases(form) => {
            numbered_releases_are_distinct();
            report_in(rt, wide, releases, form)
        }
        RunReport::Frames => {
            leave(releases);
            frame_log::<T>(wide.alloc, wide.plan, journal)
        }
    }
}

// The report of these releases in a form.
fn report_in<R: Threads + Sync, T: PrefixTree>(
    rt: &R,
    wide: &WideReport<'_>,
    releases: Vec<Release<T>>,
    form: ReportForm,
) -> Result<Vec<u8>, AllocError>
    requires distinct { AreDistinct (releases_view T.tree releases.items) }
    ensures { IfOk result
        (λ text. IsReportIn form wide.now.plan.now (faults_in wide.now) (releases_view T.tree releases.items)
        (losses_in wide.now) text.items) }
{
    match form {
        ReportForm::Text => wide_text(rt, wide, releases),
        ReportForm::Json => wide_json(rt, wide, releases),
    }
}

/// Runs a plan with the events that a seed picks, until none is enabled.
pub fn sim_plan<T: PrefixTree>(
    alloc: Global,
    plan: &Plan,
    seed: u64,
    wanted: RunReport,
) -> Result<Output, AllocError>
    ensures { IfOk result (λ output. HasOutput (SimTask plan.now seed wanted) (output_view output)) }
{
    plan.invariant();
    let mut net: Net<'_, T> = Net::new(alloc, plan)?;
    let journal = net.run_picked(seed)?;
    let output = finished(alloc, plan, net.releases(), journal, wanted)?;
    leave(net);
    Ok(output)
}

// The output of a whole run, of which this is the journal and these are the releases.
fn finished<T: PrefixTree>(
    alloc: Global,
    plan: &Plan,
    releases: &[Release<T>],
    journal: Journal,
    wanted: RunReport,
) -> Result<Output, AllocError>
    requires whole { IsWholeRun plan.now journal (releases_view T.tree releases.now) }
    ensures run { IfOk result (λ output. HasRun plan.now wanted (output_view output)) }
    ensures journal { IfOk result (λ output. output.journal ≡ journal) }
{
    plan.invariant();
    let report = text_of::<T>(alloc, plan, releases, &journal, wanted)?;
    let journal_text = write_journal(alloc, plan, &journal)?;
    Ok(Output {
        unfinished: None,
        journal,
        report,
        journal_text,
    })
}

/// Does the events of a journal that was read, one after another. Refused with `BadJournal` at the first event that may
/// not come, or else at the bad line.
pub fn replay_plan<T: PrefixTree>(
    alloc: Global,
    plan: &Plan,
    read: JournalRead,
    wanted: RunReport,
) -> Result<Output, Status>
    ensures ok { IfOk result (λ output. ReplaysAs plan.now wanted (read_view read) (output_view output)) }
    ensures err { IfErr result (IsJobRefusal (replay_step plan.now wanted (read_view read))) }
{
    let Ok(mut net) = Net::<T>::new(alloc, plan) else {
        return Err(Status::OutOfMemory);
    };
    match redo(&mut net, &read.events) {
        Ok(()) => {}
        Err(status) => return Err(status),
    }
    if let Some(number) = read.bad {
        return Err(Status::BadJournal(number));
    }
    match replayed(alloc, plan, &net, read.events, wanted) {
        Ok(output) => {
            leave(net);
            Ok(output)
        }
        Err(_) => Err(Status::OutOfMemory),
    }
}

// The output of a replay that has come to the end of its journal.
fn replayed<T: PrefixTree>(
    alloc: Global,
    plan: &Plan,
    net: &Net<'_, T>,
    journal: Journal,
    wanted: RunReport,
) -> Result<Output, AllocError>
    requires same { net.now.plan ≡ plan.now }
    requires usable { net.now.failed ≡ false }
    requires reached { IsReachedBy net.now journal }
    requires home { AllHome net.now }
    ensures replay { IfOk result (λ output. HasOutput (ReplayTask plan.now journal wanted) (output_view output)) }
    ensures journal { IfOk result (λ output. output.journal ≡ journal) }
{
    plan.invariant();
    let unfinished = net.enabled(0);
    let report = text_of::<T>(alloc, plan, net.releases(), &journal, wanted)?;
    Ok(Output {
        unfinished,
        journal,
        report,
        journal_text: Vec::new(alloc),
    })
}

// How many workers a direct merge is worth, of those that it may have. One wave is for one, unless a gate may hold it
// until others come.
fn direct_workers<R: Threads, G: Gate>(rt: &R, plan: &Plan, workers: u32, gate: &G) -> u32
    requires { 1 ≤ workers }
    ensures { (1 ≤ result) × (result ≤ workers) }
{
    if has_one_wave(plan) && !gate.may_wait() {
        return 1;
    }
    workers_for(rt, plan, workers, gate, LARGE_DIRECT)
}

// Whether the streams of a plan have one wave in all.
fn has_one_wave(plan: &Plan) -> bool {
    match plan.streams() {
        [stream] => stream.waves() == 1,
        _ => false,
    }
}

/// The direct merge of each wave by so many workers: no event, and no line of a fault.
pub fn direct_plan<R: Threads + Sync, T: PrefixTree, G: Gate>(
    host: &Host<'_, R, G>,
    plan: &Plan,
    workers: u8,
    form: ReportForm,
) -> Result<Output, AllocError>
    requires workers { (1 ≤ workers) × (workers ≤ 32) }
    ensures { IfOk result (λ output. HasOutput (DirectTask plan.now form) (output_view output)) }
{
    plan.invariant();
    let number = direct_workers(host.rt, plan, u32::from(workers), host.gate);
    let job = WideDirect {
        alloc: host.alloc,
        plan,
        gate: host.gate,
        workers: number,
    };
    let releases = wide_direct::<R, T, G>(host.rt, &job)?;
    let wide = WideReport {
        alloc: host.alloc,
        plan,
        shows_faults: false,
        lost: &[],
        workers: number,
    };
    let report = report_in(host.rt, &wide, releases, form)?;
    Ok(Output {
        unfinished: None,
        journal: Journal::new(host.alloc),
        report,
        journal_text: Vec::new(host.alloc),
    })
}

// The nodes that the events of a journal lose, in order.
fn losses_of(alloc: Global, journal: &Journal) -> Result<Vec<u32>, AllocError>
    ensures { IfOk result (λ lost. lost.items ≡ losses_of journal.now) }
{
    let mut lost = Vec::new(alloc);
    for number in 0..journal.len() {
        if let Event::Lose { node } = journal.at(number) {
            lost.push(node)?;
        }
    }
    Ok(lost)
}

// What is wanted of a journal with these releases: their report, or the frames that its events receive. For the frames
// its events are done once more.
fn text_of<T: PrefixTree>(
    alloc: Global,
    plan: &Plan,
    releases: &[Release<T>],
    journal: &Journal,
    wanted: RunReport,
) -> Result<Vec<u8>, AllocError>
    requires legal { IsLegal plan.now journal.now }
    requires numbered { AreNumberedInOrder [] (releases_view T.tree releases.now) }
    ensures { IfOk result
        (λ text. IsWrittenIn wanted plan.now (releases_view T.tree releases.now) journal.now text.items) }
{
    match wanted {
        RunReport::Releases(form) => report_of(alloc, plan, releases, journal, form),
        RunReport::Frames => frame_log::<T>(alloc, plan, journal),
    }
}

// The report of what was released, and of what came of the plan's faults in this journal.
fn report_of<T: PrefixTree>(
    alloc: Global,
    plan: &Plan,
    releases: &[Release<T>],
    journal: &Journal,
    form: ReportForm,
) -> Result<Vec<u8>, AllocError>
    requires numbered { AreNumberedInOrder [] (releases_view T.tree releases.now) }
    ensures { IfOk result (λ report. IsReportIn form plan.now plan.now.faults (releases_view T.tree releases.now)
        (losses_of journal.now) report.items) }
{
    numbered_releases_are_distinct();
    let lost = losses_of(alloc, journal)?;
    match form {
        ReportForm::Text => report_text(alloc, plan, releases, &lost),
        ReportForm::Json => report_json(alloc, plan, releases, &lost),
    }
}

/// The frames of a capture's bytes, printed. Refused with `BadFrames` where they are not whole frames to the last byte.
pub fn capture_output<T: PrefixTree>(alloc: Global, bytes: &[u8]) -> Result<Output, Status>
    ensures ok { IfOk result (λ output. (by_capture bytes.now (capture_of bytes.now) ≡ Does (CaptureTask bytes.now))
        × HasOutput (CaptureTask bytes.now) (output_view output)) }
    ensures err { IfErr result (IsCaptureRefusal (by_capture bytes.now (capture_of bytes.now))) }
{
    captures_are_frames();
    match capture_text::<T>(alloc, bytes) {
        Ok(report) => Ok(Output {
            unfinished: None,
            journal: Journal::new(alloc),
            report,
            journal_text: Vec::new(alloc),
        }),
        Err(error) => Err(capture_refusal(error)),
    }
}

// The status of a capture that was refused.
fn capture_refusal(error: FrameError) -> Status
    ensures { result ≡ refusal_of_capture error }
{
    match error {
        FrameError::Refused { at, reason } => Status::BadFrames { at, reason },
        FrameError::OutOfMemory => Status::OutOfMemory,
    }
}

// Does the events of a journal, as far as they may come.
fn redo<T: PrefixTree>(net: &mut Net<'_, T>, journal: &Journal) -> Result<(), Status>
    requires usable { net.old.failed ≡ false }
    requires home { AllHome net.old }
    requires start { IsReachedBy net.old [] }
    ensures plan { net.new.plan ≡ net.old.plan }
    ensures usable { OnOk result (net.new.failed ≡ false) }
    ensures home { OnOk result (AllHome net.new) }
    ensures reached { OnOk result (IsReachedBy net.new journal.now) }
    ensures refused { IfErr result (IsEventRefusal (first_refused net.old.plan (start net.old.plan) journal.now)) }
{
    for number in 0..journal.len() {
        match net.apply(journal.at(number)) {
            Ok(()) => {}
            Err(NetError::NotEnabled) => return Err(Status::BadJournal(number)),
            Err(NetError::OutOfMemory) => return Err(Status::OutOfMemory),
        }
    }
    Ok(())
}
