//! What the numbers of the ranks come to, at each release of a run whose events a seed picks.
ghost use Rattle.std.specs.Prelude.{[], IfOk};
ghost use Rattle.overlay_core.specs.TreeReleases.{AreNumberedInOrder, releases_view};
ghost use Rattle.front_end.specs.SumsReport.{SayNumbers, tree_value};
ghost use Rattle.job_files.specs.Tasks.{SumsTask};
ghost use Rattle.stat_tool.specs.Outputs.{HasOutput};
ghost use Rattle.stat_tool.specs.Reports.{IsSumsReportIn};
ghost use Rattle.stat_tool.specs.Views.{output_view};

use crate::output::{Output, leave};
use front_end::{numbered_releases_are_distinct, sums_json, sums_text};
use overlay_core::{Release, samples_change_no_run};
use overlay_net::Net;
use prefix_tree::PrefixTree;
use rank_sums::{Fold, part_plan, sums_are_exact};
use stat_plan::Plan;
use stat_words::{ReportForm, SumsReport};
use std::alloc::{AllocError, Global};
use value_text::Values;

/// Runs a plan with the events that a seed picks, until none is enabled, and folds at each of its releases the numbers
/// of the ranks that it covers. In the run each daemon has sampled its part of the fold, and nothing else.
pub fn sums_plan<T: PrefixTree>(
    alloc: Global,
    plan: Plan,
    values: &Values,
    seed: u64,
    wanted: SumsReport<'_>,
) -> Result<Output, AllocError>
    ensures { IfOk result
        (λ output. HasOutput (SumsTask plan values.now seed wanted.entry.fold wanted.entry.form) (output_view output)) }
{
    samples_change_no_run();
    sums_are_exact();
    let parts = part_plan(alloc, plan, values, wanted.fold)?;
    let mut net: Net<'_, T> = Net::new(alloc, &parts)?;
    let journal = net.run_picked(seed)?;
    let report = text_of_sums(alloc, net.releases(), wanted.fold, wanted.form)?;
    leave(net);
    leave(parts);
    Ok(Output {
        unfinished: None,
        journal,
        report,
        journal_text: Vec::new(alloc),
    })
}

// The report of what the trees of these releases come to.
fn text_of_sums<T: PrefixTree>(
    alloc: Global,
    releases: &[Release<T>],
    fold: Fold,
    form: ReportForm,
) -> Result<Vec<u8>, AllocError>
    requires numbered { AreNumberedInOrder [] (releases_view T.tree releases.now) }
    requires numbers { SayNumbers fold (releases_view T.tree releases.now) }
    ensures { IfOk result
        (λ text. IsSumsReportIn form fold (tree_value fold) (releases_view T.tree releases.now) text.items) }
{
    numbered_releases_are_distinct();
    match form {
        ReportForm::Text => sums_text(alloc, releases, fold),
        ReportForm::Json => sums_json(alloc, releases, fold),
    }
}
