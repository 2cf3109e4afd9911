//! A generated job, run with events that its seed picks.
ghost use Rattle.std.specs.Prelude.{◌≤◌, IfOk};
ghost use Rattle.job_files.specs.Tasks.{GenTask};
ghost use Rattle.stat_tool.specs.Outputs.{HasOutput};
ghost use Rattle.stat_tool.specs.Views.{output_view};

use crate::output::Output;
use generated_job::{generated_plan, summary};
use overlay_net::Net;
use prefix_tree::PrefixTree;
use std::alloc::{AllocError, Global};

/// Makes the job of a size and a seed, runs it with events that the seed picks, and sums the run up.
pub fn gen_job<T: PrefixTree>(alloc: Global, size: u16, seed: u64) -> Result<Output, AllocError>
    requires { (1 ≤ size) × (size ≤ 256) }
    ensures { IfOk result (λ output. HasOutput (GenTask size seed) (output_view output)) }
{
    let size = u32::from(size);
    let plan = generated_plan(alloc, seed, size)?;
    plan.invariant();
    let mut net: Net<'_, T> = Net::new(alloc, &plan)?;
    let journal = net.run_picked(seed)?;
    let report = summary(alloc, seed, size, &journal, net.releases())?;
    Ok(Output {
        unfinished: None,
        journal,
        report,
        journal_text: Vec::new(alloc),
    })
}
