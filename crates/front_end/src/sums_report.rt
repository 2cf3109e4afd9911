//! The text of the report of sums.
ghost use Rattle.std.specs.Prelude.{◌≡◌, ◌++◌, IfOk, OnOk};
ghost use Rattle.std.specs.List.{flat_map};
ghost use Rattle.overlay_core.specs.TreeReleases.{release_view, releases_view};
ghost use Rattle.rank_sums.specs.PartTrees.{SaysNumbersWithin};
ghost use Rattle.front_end.specs.Report.{AreDistinct};
ghost use Rattle.front_end.specs.Shown.{shown_releases};
ghost use Rattle.front_end.specs.SumsReport.{IsSumsReport, SayNumbers, sum_line, tree_value, value_text};

use crate::release_text::write_release_words;
use crate::report::in_order;
use itoa::Buffer;
use overlay_core::Release;
use prefix_tree::PrefixTree;
use rank_sums::{Fold, value_of};
use std::alloc::{AllocError, Global};

/// The report of what the trees of some releases come to, where their frames are numbers: by stream, wave and number, a
/// line for each with the ranks that it covers, the fold and the value. The releases may be given in any order. Each
/// line ends with a line feed.
pub fn sums_text<T: PrefixTree>(
    alloc: Global,
    releases: &[Release<T>],
    fold: Fold,
) -> Result<Vec<u8>, AllocError>
    requires distinct { AreDistinct (releases_view T.tree releases.now) }
    requires numbers { SayNumbers fold (releases_view T.tree releases.now) }
    ensures { IfOk result
        (λ text. IsSumsReport fold (tree_value fold) (releases_view T.tree releases.now) text.items) }
{
    let ordered = in_order(alloc, releases)?;
    let mut text = Vec::new(alloc);
    write_sums(&ordered, fold, &mut text)?;
    text.extend_from_slice(b"end\n")?;
    Ok(text)
}

// Appends the line of each release.
fn write_sums<T: PrefixTree>(
    releases: &[&Release<T>],
    fold: Fold,
    out: &mut Vec<u8>,
) -> Result<(), AllocError>
    requires numbers { SayNumbers fold (shown_releases T.tree releases.now) }
    ensures { OnOk result (out.new.items
        ≡ out.old.items ++ flat_map (sum_line fold (tree_value fold)) (shown_releases T.tree releases.now)) }
{
    for release in releases {
        write_sum(release, fold, out)?;
    }
    Ok(())
}

// Appends the line of a release.
fn write_sum<T: PrefixTree>(
    release: &Release<T>,
    fold: Fold,
    out: &mut Vec<u8>,
) -> Result<(), AllocError>
    requires numbers { SaysNumbersWithin fold (T.tree release.now.tree) }
    ensures { OnOk result
        (out.new.items ≡ out.old.items ++ sum_line fold (tree_value fold) (release_view T.tree release.now)) }
{
    let value = value_of(*out.allocator(), fold, &release.tree)?;
    write_release_words(release, out)?;
    out.extend_from_slice(b" covered ")?;
    release.tree.row(0).label.write_text(out)?;
    out.push(b' ')?;
    out.extend_from_slice(fold.word().as_bytes())?;
    out.push(b' ')?;
    write_value(value, out)?;
    out.push(b'\n')?;
    Ok(())
}

// Appends a value.
fn write_value(value: Option<i64>, out: &mut Vec<u8>) -> Result<(), AllocError>
    ensures { OnOk result (out.new.items ≡ out.old.items ++ value_text value) }
{
    match value {
        Some(number) => out.extend_from_slice(Buffer::new().format(number).as_bytes()),
        None => out.extend_from_slice(b"-"),
    }
}
