//! The modes: from the files that the words name to an output.
ghost use Rattle.std.specs.Prelude.{◌≡◌, ◌≤◌, [], IfErr, IfOk, Some};
ghost use Rattle.tree_view.specs.Reading.{view_of};
ghost use Rattle.tree_view.specs.Views.{TreeView};
ghost use Rattle.journal_text.specs.Reading.{read_view};
ghost use Rattle.stat_words.specs.Words.{names_of};
ghost use Rattle.stat_words.specs.Words.{Cast, Direct, Frames, Gen, Replay, Run, Sim, Sums, View, sums_asked, view_asked};
ghost use Rattle.stat_desk.specs.Change.{change};
ghost use Rattle.stat_tool.specs.Call.{HasJournal, HasNoJournal, Prepared, Prevented};
ghost use Rattle.stat_tool.specs.Views.{output_view};

use crate::cast::cast_plan;
use crate::generated::gen_job;
use crate::output::{
    Host, Output, capture_output, direct_plan, leave, replay_plan, run_output, sim_plan,
};
use crate::size::{LARGE_RUN, workers_for};
use crate::sums::sums_plan;
use crate::view::view_plan;
use job_files::{FileRole, Status, read_file, read_plan, read_values};
use journal_text::{JournalRead, read_journal};
use overlay_event::Gate;
use overlay_run::run_workers;
use prefix_tree::PrefixTree;
use stat_desk::Desk;
use stat_plan::Plan;
use stat_words::{Files, ReportForm, RunReport, SumsReport, ViewReport};
use std::alloc::Global;
use std::sync::Wait;
use std::thread::Threads;

/// The run of a plan by so many workers, or fewer where it is not worth them, whose events pass the gate.
pub fn prepare_run<R: Threads + Wait + Sync, T: PrefixTree, D: Desk, G: Gate>(
    host: &Host<'_, R, G>,
    files: Files<'_>,
    workers: u8,
    wanted: RunReport,
    desk: &mut D,
) -> Result<Output, Status>
    requires workers { (1 ≤ workers) × (workers ≤ 32) }
    ensures ok { IfOk result (λ output. Prepared (Run (names_of files.entry) workers wanted)
        (change D.seen desk.old desk.new) (output_view output)) }
    ensures err { IfErr result (Prevented (Run (names_of files.entry) workers wanted)
        (change D.seen desk.old desk.new)) }
{
    let plan = match read_plan(host.alloc, files, desk) {
        Ok(plan) => plan,
        Err(status) => return Err(status),
    };
    let number = workers_for(host.rt, &plan, u32::from(workers), host.gate, LARGE_RUN);
    let ran = match run_workers::<R, T, G>(host.rt, host.alloc, &plan, number, host.gate) {
        Ok(ran) => ran,
        Err(_) => return Err(Status::OutOfMemory),
    };
    match run_output(host, &plan, ran, number, wanted) {
        Ok(output) => {
            leave(plan);
            Ok(output)
        }
        Err(_) => Err(Status::OutOfMemory),
    }
}

/// The run of a plan with the events that a seed picks.
pub fn prepare_sim<T: PrefixTree, D: Desk>(
    alloc: Global,
    files: Files<'_>,
    seed: u64,
    wanted: RunReport,
    desk: &mut D,
) -> Result<Output, Status>
    ensures ok { IfOk result (λ output. Prepared (Sim (names_of files.entry) seed wanted)
        (change D.seen desk.old desk.new) (output_view output)) }
    ensures err { IfErr result (Prevented (Sim (names_of files.entry) seed wanted)
        (change D.seen desk.old desk.new)) }
{
    let plan = match read_plan(alloc, files, desk) {
        Ok(plan) => plan,
        Err(status) => return Err(status),
    };
    match sim_plan::<T>(alloc, &plan, seed, wanted) {
        Ok(output) => {
            leave(plan);
            Ok(output)
        }
        Err(_) => Err(Status::OutOfMemory),
    }
}

/// The run of a plan by a given journal.
pub fn prepare_replay<T: PrefixTree, D: Desk>(
    alloc: Global,
    files: Files<'_>,
    journal: &str,
    wanted: RunReport,
    desk: &mut D,
) -> Result<Output, Status>
    ensures ok { IfOk result (λ output. Prepared (Replay (names_of files.entry) journal.now wanted)
        (change D.seen desk.old desk.new) (output_view output)) }
    ensures err { IfErr result (Prevented (Replay (names_of files.entry) journal.now wanted)
        (change D.seen desk.old desk.new)) }
    ensures unwritten { IfOk result (λ output. output.journal_text.items ≡ []) }
{
    let plan = match read_plan(alloc, files, desk) {
        Ok(plan) => plan,
        Err(status) => return Err(status),
    };
    let read = match read_events(alloc, &plan, journal, desk) {
        Ok(read) => read,
        Err(status) => return Err(status),
    };
    let ended = replay_plan::<T>(alloc, &plan, read, wanted);
    leave(plan);
    ended
}

// The events of a journal's file.
fn read_events<D: Desk>(
    alloc: Global,
    plan: &Plan,
    name: &str,
    desk: &mut D,
) -> Result<JournalRead, Status>
    ensures ok { IfOk result (λ read. HasJournal (change D.seen desk.old desk.new)
        name.now plan.now (read_view read)) }
    ensures err { IfErr result (HasNoJournal
        (change D.seen desk.old desk.new) name.now) }
{
    let bytes = match read_file(desk, name, FileRole::Journal) {
        Ok(bytes) => bytes,
        Err(status) => return Err(status),
    };
    match read_journal(alloc, plan, bytes.as_slice()) {
        Ok(read) => Ok(read),
        Err(_) => Err(Status::OutOfMemory),
    }
}

/// The direct merge of each wave of a plan, by so many workers.
pub fn prepare_direct<R: Threads + Sync, T: PrefixTree, D: Desk, G: Gate>(
    host: &Host<'_, R, G>,
    files: Files<'_>,
    workers: u8,
    form: ReportForm,
    desk: &mut D,
) -> Result<Output, Status>
    requires workers { (1 ≤ workers) × (workers ≤ 32) }
    ensures ok { IfOk result (λ output. Prepared (Direct (names_of files.entry) workers form)
        (change D.seen desk.old desk.new) (output_view output)) }
    ensures err { IfErr result (Prevented (Direct (names_of files.entry) workers form)
        (change D.seen desk.old desk.new)) }
    ensures unwritten { IfOk result (λ output. output.journal_text.items ≡ []) }
{
    let plan = match read_plan(host.alloc, files, desk) {
        Ok(plan) => plan,
        Err(status) => return Err(status),
    };
    match direct_plan::<R, T, G>(host, &plan, workers, form) {
        Ok(output) => {
            leave(plan);
            Ok(output)
        }
        Err(_) => Err(Status::OutOfMemory),
    }
}

/// The summary of a generated job.
pub fn prepare_gen<T: PrefixTree, D: Desk>(
    alloc: Global,
    size: u16,
    seed: u64,
    desk: &mut D,
) -> Result<Output, Status>
    requires size { (1 ≤ size) × (size ≤ 256) }
    ensures ok { IfOk result (λ output. Prepared (Gen size seed)
        (change D.seen desk.old desk.new) (output_view output)) }
    ensures err { IfErr result (Prevented (Gen size seed)
        (change D.seen desk.old desk.new)) }
    ensures same { desk.new ≡ desk.old }
    ensures unwritten { IfOk result (λ output. output.journal_text.items ≡ []) }
{
    match gen_job::<T>(alloc, size, seed) {
        Ok(output) => Ok(output),
        Err(_) => Err(Status::OutOfMemory),
    }
}

/// Commands to the nodes of a plan with the events that a seed picks.
pub fn prepare_cast<D: Desk>(
    alloc: Global,
    files: Files<'_>,
    seed: u64,
    commands: u32,
    desk: &mut D,
) -> Result<Output, Status>
    requires commands { commands ≤ 1000 }
    ensures ok { IfOk result (λ output. Prepared (Cast (names_of files.entry) seed commands)
        (change D.seen desk.old desk.new) (output_view output)) }
    ensures err { IfErr result (Prevented (Cast (names_of files.entry) seed commands)
        (change D.seen desk.old desk.new)) }
{
    let plan = match read_plan(alloc, files, desk) {
        Ok(plan) => plan,
        Err(status) => return Err(status),
    };
    match cast_plan(alloc, &plan, seed, commands) {
        Ok(output) => {
            leave(plan);
            Ok(output)
        }
        Err(_) => Err(Status::OutOfMemory),
    }
}

/// The fold of the ranks' numbers at each release of a run of a plan with the events that a seed picks.
pub fn prepare_sums<T: PrefixTree, D: Desk>(
    alloc: Global,
    files: Files<'_>,
    seed: u64,
    sums: SumsReport<'_>,
    desk: &mut D,
) -> Result<Output, Status>
    ensures ok { IfOk result (λ output. Prepared (Sums (names_of files.entry) seed (sums_asked sums.entry))
        (change D.seen desk.old desk.new) (output_view output)) }
    ensures err { IfErr result (Prevented (Sums (names_of files.entry) seed (sums_asked sums.entry))
        (change D.seen desk.old desk.new)) }
    ensures unwritten { IfOk result (λ output. output.journal_text.items ≡ []) }
{
    let plan = match read_plan(alloc, files, desk) {
        Ok(plan) => plan,
        Err(status) => return Err(status),
    };
    let values = match read_values(alloc, desk, sums.values, &plan) {
        Ok(values) => values,
        Err(status) => return Err(status),
    };
    match sums_plan::<T>(alloc, plan, &values, seed, sums) {
        Ok(output) => {
            leave(values);
            Ok(output)
        }
        Err(_) => Err(Status::OutOfMemory),
    }
}

/// A view of each release of a run of a plan with the events that a seed picks.
pub fn prepare_view<T: PrefixTree, D: Desk>(
    alloc: Global,
    files: Files<'_>,
    seed: u64,
    view: ViewReport<'_>,
    desk: &mut D,
) -> Result<Output, Status>
    requires argument { (v : TreeView) × (view_of view.by view.argument.now ≡ Some v) }
    ensures ok { IfOk result (λ output. Prepared (View (names_of files.entry) seed (view_asked view.entry))
        (change D.seen desk.old desk.new) (output_view output)) }
    ensures err { IfErr result (Prevented (View (names_of files.entry) seed (view_asked view.entry))
        (change D.seen desk.old desk.new)) }
    ensures unwritten { IfOk result (λ output. output.journal_text.items ≡ []) }
{
    let plan = match read_plan(alloc, files, desk) {
        Ok(plan) => plan,
        Err(status) => return Err(status),
    };
    match view_plan::<T>(alloc, &plan, seed, view) {
        Ok(output) => {
            leave(plan);
            Ok(output)
        }
        Err(_) => Err(Status::OutOfMemory),
    }
}

/// The frames of a capture, printed.
pub fn prepare_frames<T: PrefixTree, D: Desk>(
    alloc: Global,
    capture: &str,
    desk: &mut D,
) -> Result<Output, Status>
    ensures ok { IfOk result (λ output. Prepared (Frames capture.now)
        (change D.seen desk.old desk.new) (output_view output)) }
    ensures err { IfErr result (Prevented (Frames capture.now)
        (change D.seen desk.old desk.new)) }
    ensures unwritten { IfOk result (λ output. output.journal_text.items ≡ []) }
{
    let bytes = match read_file(desk, capture, FileRole::Capture) {
        Ok(bytes) => bytes,
        Err(status) => return Err(status),
    };
    capture_output::<T>(alloc, bytes.as_slice())
}
