//! The plan of the generated job.

ghost use Rattle.std.specs.Prelude.{◌≡◌, ◌≤◌, IfOk};
ghost use Rattle.overlay_setup.specs.Scripts.{ScriptFits};
ghost use Rattle.stat_plan.specs.Invariants.{SamplesFit};
ghost use Rattle.text_lines.specs.declared.text_error.TextError.TheVariants.{OutOfMemory};
ghost use Rattle.generated_job.specs.Job.{job_nodes, job_samples, job_script, job_plan};

use crate::texts::{SIZE_LIMIT, make_samples, make_script, make_topology};
use overlay_setup::{Script, Topology};
use stat_plan::{Plan, PlanError, Samples};
use std::alloc::{AllocError, Global};
use text_lines::TextError;

// The error of a text in which no other can be.
fn out_of_memory(error: TextError) -> AllocError
    requires { error ≡ OutOfMemory }
{
    // for the proof: what the error is
    let _ = error;
    AllocError
}

// The nodes.
fn generated_topology(alloc: Global, size: u32) -> Result<Topology, AllocError>
    requires not_zero { 1 ≤ size }
    requires within_limit { size ≤ SIZE_LIMIT }
    ensures { IfOk result (λ t. t ≡ job_nodes size) }
{
    let text = make_topology(alloc, size)?;
    match topology_text::read(alloc, text.as_slice()) {
        Ok(topology) => Ok(topology),
        Err(error) => Err(out_of_memory(error)),
    }
}

// The samples.
fn generated_samples(
    alloc: Global,
    seed: u64,
    size: u32,
    topology: &Topology,
) -> Result<Samples, AllocError>
    requires not_zero { 1 ≤ size }
    requires within_limit { size ≤ SIZE_LIMIT }
    requires nodes { topology.now ≡ job_nodes size }
    ensures value { IfOk result (λ s. s ≡ job_samples seed size) }
    ensures fits { IfOk result (λ s. SamplesFit topology.now s) }
{
    let text = make_samples(alloc, seed, size)?;
    match sample_text::read(alloc, text.as_slice(), topology) {
        Ok(samples) => Ok(samples),
        Err(error) => Err(out_of_memory(error)),
    }
}

// The script.
fn generated_script(alloc: Global, size: u32, topology: &Topology) -> Result<Script, AllocError>
    requires not_zero { 1 ≤ size }
    requires within_limit { size ≤ SIZE_LIMIT }
    requires nodes { topology.now ≡ job_nodes size }
    ensures value { IfOk result (λ c. c ≡ job_script size) }
    ensures fits { IfOk result (λ c. ScriptFits topology.now c) }
{
    let text = make_script(alloc, size)?;
    match script_text::read(alloc, text.as_slice(), topology) {
        Ok(script) => Ok(script),
        Err(error) => Err(out_of_memory(error)),
    }
}

/// The plan of a job with this seed and size: what its three texts are read as. The size is 1 to `SIZE_LIMIT`.
///
/// # Errors
///
/// Only where memory runs out.
pub fn generated_plan(alloc: Global, seed: u64, size: u32) -> Result<Plan, AllocError>
    requires not_zero { 1 ≤ size }
    requires within_limit { size ≤ SIZE_LIMIT }
    ensures { IfOk result (λ p. p ≡ job_plan seed size) }
{
    let topology = generated_topology(alloc, size)?;
    let samples = generated_samples(alloc, seed, size, &topology)?;
    let script = generated_script(alloc, size, &topology)?;
    match Plan::build(alloc, topology, samples, script) {
        Ok(plan) => Ok(plan),
        Err(PlanError::OutOfMemory) => Err(AllocError),
        Err(PlanError::TooManyPrefixes { .. }) => unreachable!(),
    }
}
