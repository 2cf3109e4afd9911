//! A release as JSON.
ghost use Rattle.std.specs.Prelude.{◌≡◌, ◌++◌, ◌<◌, [], cond, OnOk};
ghost use Rattle.rank_set.specs.Ranks.{is_empty};
ghost use Rattle.stat_plan.specs.Plans.{daemons, nodes};
ghost use Rattle.overlay_core.specs.TreeReleases.{release_view};
ghost use Rattle.front_end.specs.ReleaseText.{kind_text, missing};
ghost use Rattle.front_end.specs.JsonReport.{all_missing_data, missing_data, missing_state as text_of_missing, release_data};
ghost use Rattle.json_text.specs.Tokens.{value_tokens};

use crate::json_tree::{write_classes, write_tree};
use crate::release_text::daemons_of;
use equiv_class::classes;
use json_text::{JsonText, ranks_text};
use overlay_core::{Kind, Release};
use prefix_tree::PrefixTree;
use rank_set::RankSet;
use stat_plan::Plan;
use std::alloc::AllocError;

/// Appends the object of a release.
pub fn write_release<T: PrefixTree>(
    plan: &Plan,
    release: &Release<T>,
    out: &mut JsonText,
) -> Result<(), AllocError>
    ensures { OnOk result
        (out.new ≡ out.old ++ value_tokens (release_data plan.now (release_view T.tree release.now))) }
{
    let classes = classes(out.allocator(), &release.tree)?;
    let covered = release.tree.row(0).label;
    out.begin_object()?;
    out.key("classes")?;
    write_classes(&classes, out)?;
    out.text("covered", ranks_text(out.allocator(), covered)?.as_str())?;
    out.text("kind", kind_word(release.kind))?;
    out.key("missing")?;
    write_missing(plan, release.stream, covered, &release.lost, out)?;
    out.count("number", u64::from(release.number))?;
    out.count("stream", u64::from(release.stream))?;
    out.key("tree")?;
    write_tree(&release.tree, out)?;
    out.count("wave", u64::from(release.wave))?;
    out.end_object()
}

/// The word for the kind of a release.
pub fn kind_word(kind: Kind) -> &'static str
    ensures { result.now ≡ kind_text kind }
{
    match kind {
        Kind::Partial => "partial",
        Kind::Final => "final",
    }
}

// Appends the list of the daemons with missing ranks.
fn write_missing(
    plan: &Plan,
    stream: u8,
    covered: &RankSet,
    lost: &[u32],
    out: &mut JsonText,
) -> Result<(), AllocError>
    ensures { OnOk result
        (out.new ≡ out.old ++ value_tokens (all_missing_data plan.now covered.now lost.now (daemons plan.now stream))) }
{
    out.begin_list()?;
    for daemon in daemons_of(plan, stream) {
        write_daemon(plan, covered, lost, *daemon, out)?;
    }
    out.end_list()
}

// Appends the object of a daemon with missing ranks, or nothing if all are covered.
fn write_daemon(
    plan: &Plan,
    covered: &RankSet,
    lost: &[u32],
    daemon: u32,
    out: &mut JsonText,
) -> Result<(), AllocError>
    requires { daemon < nodes plan.now }
    ensures { OnOk result
        (out.new
        ≡ out.old
        ++ cond (is_empty (missing plan.now covered.now daemon)) []
        (value_tokens (missing_data plan.now covered.now lost.now daemon))) }
{
    let missing = plan.ranks(daemon).difference(covered)?;
    if missing.is_empty() {
        return Ok(());
    }
    let ranks = ranks_text(out.allocator(), &missing)?;
    out.begin_object()?;
    out.text("daemon", plan.name(daemon))?;
    out.text("ranks", ranks.as_str())?;
    out.text("state", missing_state(lost.contains(&daemon)))?;
    out.end_object()
}

// The state of a daemon with missing ranks.
fn missing_state(is_lost: bool) -> &'static str
    ensures { result.now ≡ text_of_missing is_lost }
{
    if is_lost { "lost" } else { "pending" }
}
