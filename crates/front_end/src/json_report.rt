//! A report as JSON.
ghost use Rattle.std.specs.Prelude.{◌≡◌, ◌++◌, ◌<◌, [], map, IfOk, OnOk};
ghost use Rattle.std.specs.List.{AllByRecursion};
ghost use Rattle.stat_plan.specs.Plans.{nodes};
ghost use Rattle.serde_json.specs.Written.{compact_text};
ghost use Rattle.overlay_core.specs.TreeReleases.{release_view, releases_view};
ghost use Rattle.front_end.specs.Report.{AreDistinct};
ghost use Rattle.front_end.specs.Shown.{shown_releases};
ghost use Rattle.front_end.specs.JsonReport.{IsJsonReport, fate_state as text_of_fate, fault_data, release_data};
ghost use Rattle.json_text.specs.Values.{list_of};
ghost use Rattle.json_text.specs.Tokens.{value_tokens};

use crate::json_release::write_release;
use crate::report::in_order;
use json_text::JsonText;
use overlay_core::Release;
use overlay_setup::Fault;
use prefix_tree::PrefixTree;
use stat_plan::Plan;
use std::alloc::{AllocError, Global};

/// The report of a run as JSON: one line of compact JSON, with the same releases, in the same order, and the same
/// faults as `report_text`. The releases may be given in any order, and `lost` are the nodes that the run lost.
pub fn report_json<T: PrefixTree>(
    alloc: Global,
    plan: &Plan,
    releases: &[Release<T>],
    lost: &[u32],
) -> Result<Vec<u8>, AllocError>
    requires distinct { AreDistinct (releases_view T.tree releases.now) }
    ensures { IfOk result
        (λ text. IsJsonReport plan.now plan.now.faults (releases_view T.tree releases.now) lost.now text.items) }
{
    plan.invariant();
    json_with_faults(alloc, plan, plan.faults(), releases, lost)
}

/// The report of some releases as JSON, with an empty list of faults.
pub fn direct_json<T: PrefixTree>(
    alloc: Global,
    plan: &Plan,
    releases: &[Release<T>],
) -> Result<Vec<u8>, AllocError>
    requires distinct { AreDistinct (releases_view T.tree releases.now) }
    ensures { IfOk result (λ text. IsJsonReport plan.now [] (releases_view T.tree releases.now) [] text.items) }
{
    json_with_faults(alloc, plan, &[], releases, &[])
}

/// One release as it stands in the list of a report's releases, with nothing before or behind it.
pub fn release_json<T: PrefixTree>(
    alloc: Global,
    plan: &Plan,
    release: &Release<T>,
) -> Result<Vec<u8>, AllocError>
    ensures { IfOk result
        (λ text. text.items ≡ compact_text (release_data plan.now (release_view T.tree release.now))) }
{
    let mut out = JsonText::new(alloc);
    write_release(plan, release, &mut out)?;
    Ok(out.into_text())
}

// The report of some releases and of these faults.
fn json_with_faults<T: PrefixTree>(
    alloc: Global,
    plan: &Plan,
    faults: &[Fault],
    releases: &[Release<T>],
    lost: &[u32],
) -> Result<Vec<u8>, AllocError>
    requires nodes { AllByRecursion (λ fault. fault.node < nodes plan.now) faults.now }
    requires distinct { AreDistinct (releases_view T.tree releases.now) }
    ensures { IfOk result
        (λ text. IsJsonReport plan.now faults.now (releases_view T.tree releases.now) lost.now text.items) }
{
    let ordered = in_order(alloc, releases)?;
    let mut out = JsonText::new(alloc);
    out.begin_object()?;
    out.key("faults")?;
    write_faults(plan, faults, lost, &mut out)?;
    out.key("releases")?;
    write_releases(plan, &ordered, &mut out)?;
    out.end_object()?;
    out.into_line()
}

// Appends the list of the releases.
fn write_releases<T: PrefixTree>(
    plan: &Plan,
    releases: &[&Release<T>],
    out: &mut JsonText,
) -> Result<(), AllocError>
    ensures { OnOk result
        (out.new
        ≡ out.old ++ value_tokens (list_of (map (release_data plan.now) (shown_releases T.tree releases.now)))) }
{
    out.begin_list()?;
    for release in releases {
        write_release(plan, release, out)?;
    }
    out.end_list()
}

// Appends the list of the faults.
fn write_faults(
    plan: &Plan,
    faults: &[Fault],
    lost: &[u32],
    out: &mut JsonText,
) -> Result<(), AllocError>
    requires nodes { AllByRecursion (λ fault. fault.node < nodes plan.now) faults.now }
    ensures { OnOk result
        (out.new ≡ out.old ++ value_tokens (list_of (map (fault_data plan.now lost.now) faults.now))) }
{
    out.begin_list()?;
    for fault in faults {
        write_fault(plan, lost, *fault, out)?;
    }
    out.end_list()
}

// Appends the object of a fault.
fn write_fault(
    plan: &Plan,
    lost: &[u32],
    fault: Fault,
    out: &mut JsonText,
) -> Result<(), AllocError>
    requires { fault.node < nodes plan.now }
    ensures { OnOk result (out.new ≡ out.old ++ value_tokens (fault_data plan.now lost.now fault)) }
{
    out.begin_object()?;
    out.count("after", u64::from(fault.after))?;
    out.text("node", plan.name(fault.node))?;
    out.text("state", fate_state(lost.contains(&fault.node)))?;
    out.end_object()
}

// What came of a fault.
fn fate_state(is_lost: bool) -> &'static str
    ensures { result.now ≡ text_of_fate is_lost }
{
    if is_lost { "lost" } else { "not reached" }
}
