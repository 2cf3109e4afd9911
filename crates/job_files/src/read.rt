//! Reads the files that the words name, and tests each before the next is read. The samples are read in pieces, the
//! others whole.
ghost use Rattle.std.specs.Prelude.{◌≡◌, List, [], IfErr, IfOk, OnOk};
ghost use Rattle.stat_plan.specs.Invariants.{SamplesFit};
ghost use Rattle.overlay_setup.specs.Scripts.{ScriptFits};
ghost use Rattle.stat_plan.specs.Plans.{plan_of};
ghost use Rattle.topology_text.specs.Whole.{topology_of};
ghost use Rattle.sample_text.specs.Whole.{samples_of_text};
ghost use Rattle.script_text.specs.Whole.{script_of};
ghost use Rattle.stat_words.specs.Words.{names_of};
ghost use Rattle.stat_desk.specs.Change.{change};
ghost use Rattle.stat_desk.specs.Desk.{Bytes, HasGiven, ReadResult};
ghost use Rattle.stat_desk.specs.Feeding.{FeedsFile};
ghost use Rattle.job_files.specs.Reading.{IsPlanned, IsPlanRefusal, IsStopped, Refuses, StopsAt, ReadsAs};
ghost use Rattle.job_files.specs.Files.{limit_of, plan_files};
ghost use Rattle.job_files.specs.NextStep.{AfterPlan, values_of, with_plan};
ghost use Rattle.job_files.specs.Status.{refusal_of};

use crate::status::{FileRole, Status};
use call_path::PREFIX_LIMIT;
use overlay_setup::{Script, Topology};
use sample_text::Feeder;
use stat_desk::{Desk, DeskError, Feed};
use stat_plan::{Plan, PlanError, Samples};
use stat_words::Files;
use std::alloc::Global;
use text_lines::{Quantity, TextError};
use value_text::Values;

/// The most bytes of a file.
fn limit_of(role: FileRole) -> u64
    ensures { result ≡ limit_of role }
{
    match role {
        FileRole::Topology | FileRole::Samples | FileRole::Script | FileRole::Values => 33_554_432,
        FileRole::Journal | FileRole::Capture => 1_073_741_824,
    }
}

/// All bytes of one file.
pub fn read_file<D: Desk>(desk: &mut D, name: &str, role: FileRole) -> Result<Vec<u8>, Status>
    ensures ok { IfOk result
        (λ bytes. HasGiven (change D.seen desk.old desk.new) name.now (limit_of role) (Bytes bytes.items)) }
    ensures err { IfErr result (Refuses role name.now (change D.seen desk.old desk.new)) }
{
    let limit = limit_of(role);
    match desk.read(name, limit) {
        Ok(bytes) => Ok(bytes),
        Err(DeskError::Failed) => Err(Status::DeskFault(role)),
        Err(DeskError::TooLong) => Err(Status::OverLimit {
            file: role,
            line: 0,
            what: Quantity::Bytes,
            limit,
        }),
        Err(DeskError::OutOfMemory) => Err(Status::OutOfMemory),
    }
}

/// Feeds all bytes of one file, in pieces.
fn feed_file<D: Desk, F: Feed>(
    desk: &mut D,
    name: &str,
    role: FileRole,
    fed: &mut F,
) -> Result<(), Status>
    requires nothing_fed { F.feeds fed.old [] fed.old }
    ensures ok { OnOk result
        (FeedsFile F.feeds fed.old fed.new (change D.seen desk.old desk.new) name.now (limit_of role)) }
    ensures err { IfErr result (Refuses role name.now (change D.seen desk.old desk.new)) }
{
    let limit = limit_of(role);
    match desk.read_pieces(name, limit, fed) {
        Ok(()) => Ok(()),
        Err(DeskError::Failed) => Err(Status::DeskFault(role)),
        Err(DeskError::TooLong) => Err(Status::OverLimit {
            file: role,
            line: 0,
            what: Quantity::Bytes,
            limit,
        }),
        Err(DeskError::OutOfMemory) => Err(Status::OutOfMemory),
    }
}

/// The status of a text that was refused.
fn refusal(role: FileRole, error: TextError) -> Status
    ensures { result ≡ refusal_of role error }
{
    match error {
        TextError::Bad { line, reason } => Status::BadInput {
            file: role,
            line,
            reason,
        },
        TextError::Over { line, what, limit } => Status::OverLimit {
            file: role,
            line,
            what,
            limit,
        },
        TextError::OutOfMemory => Status::OutOfMemory,
    }
}

/// The nodes, from the topology's file.
fn read_topology<D: Desk>(alloc: Global, desk: &mut D, name: &str) -> Result<Topology, Status>
    ensures ok { IfOk result (λ t. ReadsAs (change D.seen desk.old desk.new)
        name.now (limit_of FileRole.Topology) topology_of t) }
    ensures err { IfErr result (StopsAt topology_of FileRole.Topology name.now
        (change D.seen desk.old desk.new)) }
{
    let bytes = match read_file(desk, name, FileRole::Topology) {
        Ok(bytes) => bytes,
        Err(status) => return Err(status),
    };
    match topology_text::read(alloc, bytes.as_slice()) {
        Ok(topology) => Ok(topology),
        Err(error) => Err(refusal(FileRole::Topology, error)),
    }
}

/// The samples of these nodes, from the samples' file.
fn read_samples<D: Desk>(
    alloc: Global,
    desk: &mut D,
    name: &str,
    topology: &Topology,
) -> Result<Samples, Status>
    ensures ok { IfOk result (λ s. ReadsAs (change D.seen desk.old desk.new)
        name.now (limit_of FileRole.Samples) (samples_of_text topology.now) s) }
    ensures fits { IfOk result (λ s. SamplesFit topology.now s) }
    ensures err { IfErr result (StopsAt (samples_of_text topology.now) FileRole.Samples name.now
        (change D.seen desk.old desk.new)) }
{
    let mut feeder = match Feeder::new(alloc, topology) {
        Ok(feeder) => feeder,
        Err(_) => return Err(Status::OutOfMemory),
    };
    match feed_file(desk, name, FileRole::Samples, &mut feeder) {
        Ok(()) => {}
        Err(status) => return Err(status),
    }
    match feeder.finish() {
        Ok(samples) => Ok(samples),
        Err(error) => Err(refusal(FileRole::Samples, error)),
    }
}

/// The script for these nodes, from the script's file.
fn read_script<D: Desk>(
    alloc: Global,
    desk: &mut D,
    name: &str,
    topology: &Topology,
) -> Result<Script, Status>
    ensures ok { IfOk result (λ c. ReadsAs (change D.seen desk.old desk.new)
        name.now (limit_of FileRole.Script) (script_of topology.now) c) }
    ensures fits { IfOk result (λ c. ScriptFits topology.now c) }
    ensures err { IfErr result (StopsAt (script_of topology.now) FileRole.Script name.now
        (change D.seen desk.old desk.new)) }
{
    let bytes = match read_file(desk, name, FileRole::Script) {
        Ok(bytes) => bytes,
        Err(status) => return Err(status),
    };
    match script_text::read(alloc, bytes.as_slice(), topology) {
        Ok(script) => Ok(script),
        Err(error) => Err(refusal(FileRole::Script, error)),
    }
}

/// The numbers of a plan's ranks, from the file of the values.
pub fn read_values<D: Desk>(
    alloc: Global,
    desk: &mut D,
    name: &str,
    plan: &Plan,
) -> Result<Values, Status>
    ensures ok { IfOk result (λ v. ReadsAs (change D.seen desk.old desk.new)
        name.now (limit_of FileRole.Values) (values_of plan.now) v) }
    ensures err { IfErr result (StopsAt (values_of plan.now) FileRole.Values name.now
        (change D.seen desk.old desk.new)) }
{
    let bytes = match read_file(desk, name, FileRole::Values) {
        Ok(bytes) => bytes,
        Err(status) => return Err(status),
    };
    match value_text::read_values(alloc, bytes.as_slice(), plan) {
        Ok(values) => Ok(values),
        Err(error) => Err(refusal(FileRole::Values, error)),
    }
}

/// The plan of what three files say.
fn plan_of_files(
    alloc: Global,
    topology: Topology,
    samples: Samples,
    script: Script,
) -> Result<Plan, Status>
    requires samples { SamplesFit topology samples }
    requires script { ScriptFits topology script }
    ensures ok { IfOk result (λ plan. (rest : List ReadResult) (after : AfterPlan)
        → with_plan (plan_of topology samples script) rest after ≡ after plan rest) }
    ensures err { IfErr result (IsPlanRefusal (with_plan (plan_of topology samples script) [])) }
{
    match Plan::build(alloc, topology, samples, script) {
        Ok(plan) => Ok(plan),
        Err(PlanError::TooManyPrefixes { .. }) => Err(Status::OverLimit {
            file: FileRole::Samples,
            line: 0,
            what: Quantity::Prefixes,
            limit: PREFIX_LIMIT as u64,
        }),
        Err(PlanError::OutOfMemory) => Err(Status::OutOfMemory),
    }
}

/// The plan of the three files.
pub fn read_plan<D: Desk>(alloc: Global, files: Files<'_>, desk: &mut D) -> Result<Plan, Status>
    ensures ok { IfOk result (IsPlanned (names_of files.entry) (change D.seen desk.old desk.new)) }
    ensures err { IfErr result (IsStopped (plan_files (names_of files.entry))
        (change D.seen desk.old desk.new)) }
{
    let topology = match read_topology(alloc, desk, files.topology) {
        Ok(topology) => topology,
        Err(status) => return Err(status),
    };
    let samples = match read_samples(alloc, desk, files.samples, &topology) {
        Ok(samples) => samples,
        Err(status) => return Err(status),
    };
    let script = match read_script(alloc, desk, files.script, &topology) {
        Ok(script) => script,
        Err(status) => return Err(status),
    };
    plan_of_files(alloc, topology, samples, script)
}
