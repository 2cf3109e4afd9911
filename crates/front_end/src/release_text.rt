//! The text of a release.
ghost use Rattle.std.specs.Prelude.{◌≡◌, ◌++◌, ◌<◌, OnOk};
ghost use Rattle.std.specs.List.{AllByRecursion, flat_map};
ghost use Rattle.stat_plan.specs.Plans.{daemons, nodes};
ghost use Rattle.overlay_core.specs.TreeReleases.{release_view};
ghost use Rattle.front_end.specs.ReleaseText.{classes_in, heading, missing_line, missing_text as text_of_missing, ranks_line, release_text, release_words, tree_and_classes};

use crate::class_text::write_classes;
use crate::json_release::kind_word;
use equiv_class::classes;
use overlay_core::Release;
use prefix_tree::PrefixTree;
use rank_set::RankSet;
use stat_plan::Plan;
use std::alloc::AllocError;
use tree_text::{write_numbered, write_tree};

/// Appends the text of a release.
pub fn write_release<T: PrefixTree>(
    plan: &Plan,
    release: &Release<T>,
    out: &mut Vec<u8>,
) -> Result<(), AllocError>
    ensures { OnOk result (out.new.items ≡ out.old.items ++ release_text plan.now (release_view T.tree release.now)) }
{
    let covered = release.tree.row(0).label;
    write_heading(release, out)?;
    write_ranks(b"covered ", covered, out)?;
    write_missing(plan, release.stream, covered, &release.lost, out)?;
    write_tree_and_classes(&release.tree, out)
}

/// Appends the rows of a tree and its classes.
pub fn write_tree_and_classes<T: PrefixTree>(tree: &T, out: &mut Vec<u8>) -> Result<(), AllocError>
    ensures { OnOk result
        (out.new.items ≡ out.old.items ++ tree_and_classes (T.tree tree.now) (classes_in (T.tree tree.now))) }
{
    let classes = classes(*out.allocator(), tree)?;
    out.extend_from_slice(b"tree\n")?;
    write_tree(tree, out)?;
    out.extend_from_slice(b"classes\n")?;
    write_classes(&classes, out)
}

/// Appends a line of ranks, behind a word.
pub fn write_ranks(word: &[u8], ranks: &RankSet, out: &mut Vec<u8>) -> Result<(), AllocError>
    ensures { OnOk result (out.new.items ≡ out.old.items ++ ranks_line word.now ranks.now) }
{
    out.extend_from_slice(word)?;
    ranks.write_text(out)?;
    out.push(b'\n')?;
    Ok(())
}

/// Appends the line above a release.
pub fn write_heading<T: PrefixTree>(
    release: &Release<T>,
    out: &mut Vec<u8>,
) -> Result<(), AllocError>
    ensures { OnOk result (out.new.items ≡ out.old.items ++ heading (release_view T.tree release.now)) }
{
    write_release_words(release, out)?;
    out.push(b'\n')?;
    Ok(())
}

/// Appends which release it is.
pub fn write_release_words<T: PrefixTree>(
    release: &Release<T>,
    out: &mut Vec<u8>,
) -> Result<(), AllocError>
    ensures { OnOk result (out.new.items ≡ out.old.items ++ release_words (release_view T.tree release.now)) }
{
    write_numbered(b"stream ", usize::from(release.stream), out)?;
    write_numbered(b" wave ", usize::from(release.wave), out)?;
    write_numbered(b" release ", release.number as usize, out)?;
    out.push(b' ')?;
    out.extend_from_slice(kind_word(release.kind).as_bytes())?;
    Ok(())
}

// Appends a line for each daemon of the stream with missing ranks.
fn write_missing(
    plan: &Plan,
    stream: u8,
    covered: &RankSet,
    lost: &[u32],
    out: &mut Vec<u8>,
) -> Result<(), AllocError>
    ensures { OnOk result
        (out.new.items
        ≡ out.old.items ++ flat_map (missing_line plan.now covered.now lost.now) (daemons plan.now stream)) }
{
    for daemon in daemons_of(plan, stream) {
        write_missing_line(plan, covered, lost, *daemon, out)?;
    }
    Ok(())
}

/// The daemons of a stream; none where the plan has no such stream.
pub fn daemons_of(plan: &Plan, stream: u8) -> &[u32]
    ensures value { result.now ≡ daemons plan.now stream }
    ensures nodes { AllByRecursion (λ d. d < nodes plan.now) result.now }
{
    plan.invariant();
    match plan.stream(stream) {
        Some(stream) => stream.daemons(),
        None => &[],
    }
}

// Appends the line of a daemon with missing ranks, or nothing if all are covered.
fn write_missing_line(
    plan: &Plan,
    covered: &RankSet,
    lost: &[u32],
    daemon: u32,
    out: &mut Vec<u8>,
) -> Result<(), AllocError>
    requires { daemon < nodes plan.now }
    ensures { OnOk result (out.new.items ≡ out.old.items ++ missing_line plan.now covered.now lost.now daemon) }
{
    let missing = plan.ranks(daemon).difference(covered)?;
    if missing.is_empty() {
        return Ok(());
    }
    out.extend_from_slice(missing_text(lost.contains(&daemon)))?;
    out.extend_from_slice(plan.name(daemon).as_bytes())?;
    out.push(b' ')?;
    missing.write_text(out)?;
    out.push(b'\n')?;
    Ok(())
}

// The word before a daemon with missing ranks.
fn missing_text(is_lost: bool) -> &'static [u8]
    ensures { result.now ≡ text_of_missing is_lost }
{
    if is_lost { b"lost " } else { b"pending " }
}
