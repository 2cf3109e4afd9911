//! The text of a report.
ghost use Rattle.std.specs.Prelude.{◌≡◌, ◌++◌, ◌<◌, [], IfOk, OnOk, map};
ghost use Rattle.std.specs.List.{AllByRecursion, flat_map};
ghost use Rattle.stat_plan.specs.Plans.{nodes};
ghost use Rattle.overlay_core.specs.TreeReleases.{releases_view};
ghost use Rattle.front_end.specs.ReleaseText.{release_text};
ghost use Rattle.front_end.specs.Report.{AreDistinct, IsSortedCopy, IsReport, fate_text, fault_line};
ghost use Rattle.front_end.specs.Shown.{shown_releases};

use crate::release_text::write_release;
use overlay_core::Release;
use overlay_setup::Fault;
use prefix_tree::PrefixTree;
use stat_plan::Plan;
use std::alloc::{AllocError, Global};
use tree_text::write_numbered;

/// The report of a run: its releases, by stream, wave and number, and then each fault of the plan's script with what
/// came of it. The releases may be given in any order, and `lost` are the nodes that the run lost. Each line ends with
/// a line feed.
pub fn report_text<T: PrefixTree>(
    alloc: Global,
    plan: &Plan,
    releases: &[Release<T>],
    lost: &[u32],
) -> Result<Vec<u8>, AllocError>
    requires distinct { AreDistinct (releases_view T.tree releases.now) }
    ensures { IfOk result
        (λ text. IsReport plan.now plan.now.faults (releases_view T.tree releases.now) lost.now text.items) }
{
    plan.invariant();
    text_with_faults(alloc, plan, plan.faults(), releases, lost)
}

/// The report of some releases without a line of any fault: its releases, by stream, wave and number, and the end. It
/// is what `report_text` gives for a plan whose script has no fault.
pub fn direct_text<T: PrefixTree>(
    alloc: Global,
    plan: &Plan,
    releases: &[Release<T>],
) -> Result<Vec<u8>, AllocError>
    requires distinct { AreDistinct (releases_view T.tree releases.now) }
    ensures { IfOk result (λ text. IsReport plan.now [] (releases_view T.tree releases.now) [] text.items) }
{
    text_with_faults(alloc, plan, &[], releases, &[])
}

/// For how many bytes of a report room is made before the first of them.
pub const ROOM: usize = 98_304;

// The report of some releases, with a line for each of these faults.
fn text_with_faults<T: PrefixTree>(
    alloc: Global,
    plan: &Plan,
    faults: &[Fault],
    releases: &[Release<T>],
    lost: &[u32],
) -> Result<Vec<u8>, AllocError>
    requires nodes { AllByRecursion (λ fault. fault.node < nodes plan.now) faults.now }
    requires distinct { AreDistinct (releases_view T.tree releases.now) }
    ensures { IfOk result
        (λ text. IsReport plan.now faults.now (releases_view T.tree releases.now) lost.now text.items) }
{
    let ordered = in_order(alloc, releases)?;
    let mut text = Vec::with_capacity(alloc, ROOM)?;
    write_releases(plan, &ordered, &mut text)?;
    write_faults(plan, faults, lost, &mut text)?;
    text.extend_from_slice(b"end\n")?;
    Ok(text)
}

/// The releases by stream, wave and number.
pub fn in_order<'a, T: PrefixTree>(
    alloc: Global,
    releases: &'a [Release<T>],
) -> Result<Vec<&'a Release<T>>, AllocError>
    requires distinct { AreDistinct (releases_view T.tree releases.now) }
    ensures { IfOk result
        (λ ordered. IsSortedCopy (releases_view T.tree releases.now) (shown_releases T.tree ordered.items)) }
{
    let mut ordered = references(alloc, releases)?;
    ordered.sort_unstable_by_key(|release| (release.stream, release.wave, release.number));
    Ok(ordered)
}

// A reference to each of the releases.
fn references<'a, T: PrefixTree>(
    alloc: Global,
    releases: &'a [Release<T>],
) -> Result<Vec<&'a Release<T>>, AllocError>
    ensures { IfOk result (λ all. map (λ release. release.now) all.items ≡ releases.now) }
{
    releases.iter().collect(alloc)
}

// Appends the releases, one after another.
fn write_releases<T: PrefixTree>(
    plan: &Plan,
    releases: &[&Release<T>],
    out: &mut Vec<u8>,
) -> Result<(), AllocError>
    ensures { OnOk result
        (out.new.items ≡ out.old.items ++ flat_map (release_text plan.now) (shown_releases T.tree releases.now)) }
{
    for release in releases {
        write_release(plan, release, out)?;
    }
    Ok(())
}

// Appends a line for each fault.
fn write_faults(
    plan: &Plan,
    faults: &[Fault],
    lost: &[u32],
    out: &mut Vec<u8>,
) -> Result<(), AllocError>
    requires nodes { AllByRecursion (λ fault. fault.node < nodes plan.now) faults.now }
    ensures { OnOk result (out.new.items ≡ out.old.items ++ flat_map (fault_line plan.now lost.now) faults.now) }
{
    for fault in faults {
        write_fault(plan, lost, *fault, out)?;
    }
    Ok(())
}

// Appends the line of a fault.
fn write_fault(plan: &Plan, lost: &[u32], fault: Fault, out: &mut Vec<u8>) -> Result<(), AllocError>
    requires { fault.node < nodes plan.now }
    ensures { OnOk result (out.new.items ≡ out.old.items ++ fault_line plan.now lost.now fault) }
{
    out.extend_from_slice(b"fault ")?;
    out.extend_from_slice(plan.name(fault.node).as_bytes())?;
    write_fate(lost.contains(&fault.node), fault, out)?;
    out.push(b'\n')?;
    Ok(())
}

// Appends what came of a fault.
fn write_fate(is_lost: bool, fault: Fault, out: &mut Vec<u8>) -> Result<(), AllocError>
    ensures { OnOk result (out.new.items ≡ out.old.items ++ fate_text is_lost fault) }
{
    if is_lost {
        write_numbered(b" lost after ", fault.after as usize, out)?;
    } else {
        out.extend_from_slice(b" not reached")?;
    }
    Ok(())
}
