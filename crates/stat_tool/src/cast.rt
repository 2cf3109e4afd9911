//! Commands to the nodes of a plan, in an order that a seed picks.
ghost use Rattle.std.specs.Prelude.{◌≤◌, IfOk};
ghost use Rattle.job_files.specs.Tasks.{CastTask};
ghost use Rattle.stat_tool.specs.Outputs.{HasOutput};
ghost use Rattle.stat_tool.specs.Views.{output_view};

use crate::output::{Output, leave};
use cast_text::{journal_text, report_text};
use control_cast::{
    CastNet, casts_obey_in_order, legal_casts_name_nodes, seeds_pick_one_journal,
    whole_casts_reach_all,
};
use overlay_event::Journal;
use stat_plan::Plan;
use std::alloc::{AllocError, Global};

/// Sends commands down to the nodes of a plan, with the events that a seed picks, until none is enabled.
pub fn cast_plan(alloc: Global, plan: &Plan, seed: u64, commands: u32) -> Result<Output, AllocError>
    requires commands { commands ≤ 1000 }
    ensures { IfOk result (λ output. HasOutput (CastTask plan.now seed commands) (output_view output)) }
{
    plan.invariant();
    seeds_pick_one_journal();
    legal_casts_name_nodes();
    casts_obey_in_order();
    whole_casts_reach_all();
    let mut net = CastNet::new(alloc, plan, commands)?;
    let events = net.run_picked(seed)?;
    let report = report_text(alloc, &net)?;
    let journal_text = journal_text(alloc, plan, &events)?;
    leave(net);
    Ok(Output {
        unfinished: None,
        journal: Journal::new(alloc),
        report,
        journal_text,
    })
}
