//! The report of sums as JSON.
ghost use Rattle.std.specs.Prelude.{◌≡◌, ◌++◌, IfOk, OnOk, map};
ghost use Rattle.overlay_core.specs.TreeReleases.{release_view, releases_view};
ghost use Rattle.rank_sums.specs.PartTrees.{SaysNumbersWithin};
ghost use Rattle.front_end.specs.JsonSumsReport.{IsJsonSumsReport, sum_data};
ghost use Rattle.json_text.specs.Tokens.{value_tokens};
ghost use Rattle.json_text.specs.Values.{list_of};
ghost use Rattle.front_end.specs.Report.{AreDistinct};
ghost use Rattle.front_end.specs.Shown.{shown_releases};
ghost use Rattle.front_end.specs.SumsReport.{SayNumbers, tree_value};

use crate::json_release::kind_word;
use crate::report::in_order;
use json_text::{JsonText, ranks_text};
use overlay_core::Release;
use prefix_tree::PrefixTree;
use rank_sums::{Fold, value_of};
use std::alloc::{AllocError, Global};

/// The report of sums as JSON: one line of compact JSON, with the same releases, in the same order and with the same
/// fields as `sums_text`. A value that is none is `null`.
pub fn sums_json<T: PrefixTree>(
    alloc: Global,
    releases: &[Release<T>],
    fold: Fold,
) -> Result<Vec<u8>, AllocError>
    requires distinct { AreDistinct (releases_view T.tree releases.now) }
    requires numbers { SayNumbers fold (releases_view T.tree releases.now) }
    ensures { IfOk result
        (λ text. IsJsonSumsReport fold (tree_value fold) (releases_view T.tree releases.now) text.items) }
{
    let ordered = in_order(alloc, releases)?;
    let mut out = JsonText::new(alloc);
    out.begin_object()?;
    out.key("releases")?;
    write_sums(&ordered, fold, &mut out)?;
    out.end_object()?;
    out.into_line()
}

// Appends the list of the releases.
fn write_sums<T: PrefixTree>(
    releases: &[&Release<T>],
    fold: Fold,
    out: &mut JsonText,
) -> Result<(), AllocError>
    requires numbers { SayNumbers fold (shown_releases T.tree releases.now) }
    ensures { OnOk result (out.new ≡ out.old
        ++ value_tokens (list_of (map (sum_data fold (tree_value fold)) (shown_releases T.tree releases.now)))) }
{
    out.begin_list()?;
    for release in releases {
        write_sum(release, fold, out)?;
    }
    out.end_list()
}

// Appends the object of a release.
fn write_sum<T: PrefixTree>(
    release: &Release<T>,
    fold: Fold,
    out: &mut JsonText,
) -> Result<(), AllocError>
    requires numbers { SaysNumbersWithin fold (T.tree release.now.tree) }
    ensures { OnOk result (out.new
        ≡ out.old ++ value_tokens (sum_data fold (tree_value fold) (release_view T.tree release.now))) }
{
    let value = value_of(out.allocator(), fold, &release.tree)?;
    let covered = ranks_text(out.allocator(), release.tree.row(0).label)?;
    out.begin_object()?;
    out.text("covered", covered.as_str())?;
    out.text("fold", fold.word())?;
    out.text("kind", kind_word(release.kind))?;
    out.count("number", u64::from(release.number))?;
    out.count("stream", u64::from(release.stream))?;
    out.value("value", value)?;
    out.count("wave", u64::from(release.wave))?;
    out.end_object()
}
