//! The text of the report of a view.
ghost use Rattle.std.specs.Prelude.{◌≡◌, ◌++◌, IfOk, OnOk};
ghost use Rattle.std.specs.List.{flat_map};
ghost use Rattle.overlay_core.specs.TreeReleases.{release_view, releases_view};
ghost use Rattle.tree_view.specs.Reading.{tree_view};
ghost use Rattle.front_end.specs.Report.{AreDistinct};
ghost use Rattle.front_end.specs.Shown.{shown_releases};
ghost use Rattle.front_end.specs.ViewReport.{IsViewReport, IsViewReportOfAny, own_pairs, view_line, viewed_text};

use crate::release_text::{write_heading, write_ranks, write_tree_and_classes};
use crate::report::{ROOM, in_order};
use overlay_core::Release;
use prefix_tree::PrefixTree;
use std::alloc::{AllocError, Global};
use tree_view::{View, view_tree};

/// The report of a view of some releases: by stream, wave and number, each with the ranks that it covers, the view, the
/// ranks that the view keeps, and the tree and the classes of what it keeps. The releases may be given in any order.
/// The argument is that of the view, as it was given. Each line ends with a line feed.
///
/// `own` says it of the pairs that the releases' trees give back, and `pairs` of any pairs that the trees are of, as
/// the samples of their waves.
pub fn view_text<T: PrefixTree>(
    alloc: Global,
    releases: &[Release<T>],
    view: &View<'_>,
    argument: &str,
) -> Result<Vec<u8>, AllocError>
    requires distinct { AreDistinct (releases_view T.tree releases.now) }
    ensures own { IfOk result (λ text. IsViewReport (tree_view view.now) argument.now own_pairs
        (releases_view T.tree releases.now) text.items) }
    ensures pairs { IfOk result (λ text. IsViewReportOfAny (tree_view view.now) argument.now
        (releases_view T.tree releases.now) text.items) }
{
    own_text(alloc, releases, view, argument)
}

// The report of a view of some releases.
fn own_text<T: PrefixTree>(
    alloc: Global,
    releases: &[Release<T>],
    view: &View<'_>,
    argument: &str,
) -> Result<Vec<u8>, AllocError>
    requires distinct { AreDistinct (releases_view T.tree releases.now) }
    ensures { IfOk result (λ text. IsViewReport (tree_view view.now) argument.now own_pairs
        (releases_view T.tree releases.now) text.items) }
{
    let ordered = in_order(alloc, releases)?;
    let mut text = Vec::with_capacity(alloc, ROOM)?;
    write_viewed(&ordered, view, argument, &mut text)?;
    text.extend_from_slice(b"end\n")?;
    Ok(text)
}

// Appends the releases in a view, one after another.
fn write_viewed<T: PrefixTree>(
    releases: &[&Release<T>],
    view: &View<'_>,
    argument: &str,
    out: &mut Vec<u8>,
) -> Result<(), AllocError>
    ensures { OnOk result
        (out.new.items ≡ out.old.items ++ flat_map (λ r. viewed_text (tree_view view.now) argument.now (own_pairs r) r)
        (shown_releases T.tree releases.now)) }
{
    for release in releases {
        write_release(release, view, argument, out)?;
    }
    Ok(())
}

// Appends a release in a view.
fn write_release<T: PrefixTree>(
    release: &Release<T>,
    view: &View<'_>,
    argument: &str,
    out: &mut Vec<u8>,
) -> Result<(), AllocError>
    ensures { OnOk result
        (out.new.items ≡ out.old.items
        ++ viewed_text (tree_view view.now) argument.now (own_pairs (release_view T.tree release.now))
        (release_view T.tree release.now)) }
{
    // for the proof: the tree is that of its own pairs
    let _lawful = release.tree.rows();
    let kept = view_tree(*out.allocator(), &release.tree, view)?;
    write_heading(release, out)?;
    write_ranks(b"covered ", release.tree.row(0).label, out)?;
    write_view(view, argument, out)?;
    write_ranks(b"kept ", kept.row(0).label, out)?;
    write_tree_and_classes(&kept, out)
}

// Appends the line that says by what a release is viewed.
fn write_view(view: &View<'_>, argument: &str, out: &mut Vec<u8>) -> Result<(), AllocError>
    ensures { OnOk result (out.new.items ≡ out.old.items ++ view_line (tree_view view.now) argument.now) }
{
    out.extend_from_slice(b"view ")?;
    out.extend_from_slice(view.by().word().as_bytes())?;
    out.push(b' ')?;
    out.extend_from_slice(argument.as_bytes())?;
    out.push(b'\n')?;
    Ok(())
}
