//! A view of each release of a run whose events a seed picks.
ghost use Rattle.std.specs.Prelude.{◌≡◌, [], IfOk, Some};
ghost use Rattle.overlay_core.specs.TreeReleases.{AreNumberedInOrder, releases_view};
ghost use Rattle.job_files.specs.Tasks.{ViewTask};
ghost use Rattle.stat_tool.specs.Outputs.{HasOutput};
ghost use Rattle.stat_tool.specs.Reports.{ViewsSamples};
ghost use Rattle.stat_tool.specs.Views.{output_view};
ghost use Rattle.stat_words.specs.Words.{view_asked};
ghost use Rattle.tree_view.specs.Reading.{tree_view, view_of};
ghost use Rattle.tree_view.specs.Views.{TreeView};

use crate::output::{Output, leave};
use front_end::{numbered_releases_are_distinct, view_json, view_text};
use overlay_core::Release;
use overlay_net::Net;
use prefix_tree::PrefixTree;
use stat_plan::Plan;
use stat_words::{ReportForm, ViewReport};
use std::alloc::{AllocError, Global};
use tree_view::{View, ViewError};

/// Runs a plan with the events that a seed picks, until none is enabled, and views each of its releases.
pub fn view_plan<T: PrefixTree>(
    alloc: Global,
    plan: &Plan,
    seed: u64,
    wanted: ViewReport<'_>,
) -> Result<Output, AllocError>
    requires argument { (view : TreeView) × (view_of wanted.by wanted.argument.now ≡ Some view) }
    ensures { IfOk result
        (λ output. HasOutput (ViewTask plan.now seed (view_asked wanted.entry)) (output_view output)) }
{
    plan.invariant();
    let view = match View::read(alloc, wanted.by, wanted.argument) {
        Ok(view) => view,
        Err(ViewError::OutOfMemory) => return Err(AllocError),
        // for the proof: the words were tested
        Err(ViewError::BadArgument) => unreachable!(),
    };
    let mut net: Net<'_, T> = Net::new(alloc, plan)?;
    let journal = net.run_picked(seed)?;
    let report = text_of_view(alloc, net.releases(), &view, wanted)?;
    leave(net);
    Ok(Output {
        unfinished: None,
        journal,
        report,
        journal_text: Vec::new(alloc),
    })
}

// The report of these releases in a view.
fn text_of_view<T: PrefixTree>(
    alloc: Global,
    releases: &[Release<T>],
    view: &View<'_>,
    wanted: ViewReport<'_>,
) -> Result<Vec<u8>, AllocError>
    requires numbered { AreNumberedInOrder [] (releases_view T.tree releases.now) }
    ensures { IfOk result (λ text. ViewsSamples (view_asked wanted.entry) (tree_view view.now)
        (releases_view T.tree releases.now) text.items) }
{
    numbered_releases_are_distinct();
    match wanted.form {
        ReportForm::Text => view_text(alloc, releases, view, wanted.argument),
        ReportForm::Json => view_json(alloc, releases, view, wanted.argument),
    }
}
