//! The report of a view as JSON.
ghost use Rattle.std.specs.Prelude.{◌≡◌, ◌++◌, IfOk, OnOk, map};
ghost use Rattle.overlay_core.specs.TreeReleases.{release_view, releases_view};
ghost use Rattle.tree_view.specs.Reading.{tree_view};
ghost use Rattle.json_text.specs.Tokens.{value_tokens};
ghost use Rattle.json_text.specs.Values.{list_of};
ghost use Rattle.front_end.specs.JsonViewReport.{IsJsonViewReport, IsJsonViewReportOfAny, view_data, viewed_data};
ghost use Rattle.front_end.specs.Report.{AreDistinct};
ghost use Rattle.front_end.specs.Shown.{shown_releases};
ghost use Rattle.front_end.specs.ViewReport.{own_pairs};

use crate::json_release::kind_word;
use crate::json_tree::{write_classes, write_tree};
use crate::report::in_order;
use equiv_class::classes;
use json_text::{JsonText, ranks_text};
use overlay_core::Release;
use prefix_tree::PrefixTree;
use std::alloc::{AllocError, Global};
use tree_view::{View, view_tree};

/// The report of a view as JSON: one line of compact JSON, with the same releases, in the same order and with the same
/// fields as `view_text`.
pub fn view_json<T: PrefixTree>(
    alloc: Global,
    releases: &[Release<T>],
    view: &View<'_>,
    argument: &str,
) -> Result<Vec<u8>, AllocError>
    requires distinct { AreDistinct (releases_view T.tree releases.now) }
    ensures own { IfOk result (λ text. IsJsonViewReport (tree_view view.now) argument.now own_pairs
        (releases_view T.tree releases.now) text.items) }
    ensures pairs { IfOk result (λ text. IsJsonViewReportOfAny (tree_view view.now) argument.now
        (releases_view T.tree releases.now) text.items) }
{
    own_json(alloc, releases, view, argument)
}

// The report of a view of some releases as JSON.
fn own_json<T: PrefixTree>(
    alloc: Global,
    releases: &[Release<T>],
    view: &View<'_>,
    argument: &str,
) -> Result<Vec<u8>, AllocError>
    requires distinct { AreDistinct (releases_view T.tree releases.now) }
    ensures { IfOk result (λ text. IsJsonViewReport (tree_view view.now) argument.now own_pairs
        (releases_view T.tree releases.now) text.items) }
{
    let ordered = in_order(alloc, releases)?;
    let mut out = JsonText::new(alloc);
    out.begin_object()?;
    out.key("releases")?;
    write_viewed(&ordered, view, argument, &mut out)?;
    out.end_object()?;
    out.into_line()
}

// Appends the list of the releases in a view.
fn write_viewed<T: PrefixTree>(
    releases: &[&Release<T>],
    view: &View<'_>,
    argument: &str,
    out: &mut JsonText,
) -> Result<(), AllocError>
    ensures { OnOk result
        (out.new ≡ out.old ++ value_tokens (list_of
        (map (λ r. viewed_data (tree_view view.now) argument.now (own_pairs r) r)
        (shown_releases T.tree releases.now)))) }
{
    out.begin_list()?;
    for release in releases {
        write_release(release, view, argument, out)?;
    }
    out.end_list()
}

// Appends the object of a release in a view.
fn write_release<T: PrefixTree>(
    release: &Release<T>,
    view: &View<'_>,
    argument: &str,
    out: &mut JsonText,
) -> Result<(), AllocError>
    ensures { OnOk result
        (out.new ≡ out.old
        ++ value_tokens (viewed_data (tree_view view.now) argument.now (own_pairs (release_view T.tree release.now))
        (release_view T.tree release.now))) }
{
    // for the proof: the tree is that of its own pairs
    let _lawful = release.tree.rows();
    let kept = view_tree(out.allocator(), &release.tree, view)?;
    let classes = classes(out.allocator(), &kept)?;
    let covered = ranks_text(out.allocator(), release.tree.row(0).label)?;
    let ranks = ranks_text(out.allocator(), kept.row(0).label)?;
    out.begin_object()?;
    out.key("classes")?;
    write_classes(&classes, out)?;
    out.text("covered", covered.as_str())?;
    out.text("kept", ranks.as_str())?;
    out.text("kind", kind_word(release.kind))?;
    out.count("number", u64::from(release.number))?;
    out.count("stream", u64::from(release.stream))?;
    out.key("tree")?;
    write_tree(&kept, out)?;
    out.key("view")?;
    write_view(view, argument, out)?;
    out.count("wave", u64::from(release.wave))?;
    out.end_object()
}

// Appends the object that says by what a release is viewed.
fn write_view(view: &View<'_>, argument: &str, out: &mut JsonText) -> Result<(), AllocError>
    ensures { OnOk result (out.new ≡ out.old ++ value_tokens (view_data (tree_view view.now) argument.now)) }
{
    out.begin_object()?;
    out.text("argument", argument)?;
    out.text("by", view.by().word())?;
    out.end_object()
}
