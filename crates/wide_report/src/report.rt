//! Reports of releases that several threads write.
ghost use Rattle.std.specs.Prelude.{IfOk};
ghost use Rattle.overlay_core.specs.TreeReleases.{releases_view};
ghost use Rattle.front_end.specs.Report.{AreDistinct, IsSortedCopy};
ghost use Rattle.wide_report.specs.Pieces.{IsJsonOf, IsTextOf};

use crate::ends::{json_around, text_before_end};
use crate::parts::{Form, wide_part};
use overlay_core::Release;
use prefix_tree::PrefixTree;
use stat_plan::Plan;
use std::alloc::{AllocError, Global};
use std::thread::Threads;

/// A report that is to be written.
#[derive(Drop)]
pub struct WideReport<'a> {
    /// Where its text is made.
    pub alloc: Global,
    /// The plan of the releases.
    pub plan: &'a Plan,
    /// Whether the faults of the plan's script are shown, as in the report of a run; in that of a direct merge none is.
    pub shows_faults: bool,
    /// The nodes that the run lost. Where no fault is shown, nothing is said of them.
    pub lost: &'a [u32],
    /// How many threads write its releases at most.
    pub workers: u32,
}

/// The report of some releases as text: what `front_end::report_text` gives, or `front_end::direct_text` where no fault
/// is shown. The releases may be given in any order. Once written they are not given back to the allocator, since the
/// program ends after its report.
pub fn wide_text<R: Threads + Sync, T: PrefixTree>(
    rt: &R,
    report: &WideReport<'_>,
    releases: Vec<Release<T>>,
) -> Result<Vec<u8>, AllocError>
    requires distinct { AreDistinct (releases_view T.tree releases.items) }
    ensures { IfOk result (λ text. IsTextOf report.now (releases_view T.tree releases.items) text.items) }
{
    let ordered = in_order(releases);
    let text = wide_part(rt, report, Form::Text, ordered, report.workers)?;
    text_before_end::<T>(report, text)
}

/// The report of some releases as JSON: what `front_end::report_json` gives, or `front_end::direct_json` where no fault
/// is shown. Else it is as `wide_text`.
pub fn wide_json<R: Threads + Sync, T: PrefixTree>(
    rt: &R,
    report: &WideReport<'_>,
    releases: Vec<Release<T>>,
) -> Result<Vec<u8>, AllocError>
    requires distinct { AreDistinct (releases_view T.tree releases.items) }
    ensures { IfOk result (λ text. IsJsonOf report.now (releases_view T.tree releases.items) text.items) }
{
    let ordered = in_order(releases);
    let pieces = wide_part(rt, report, Form::Json, ordered, report.workers)?;
    json_around::<T>(report, &pieces)
}

// The releases by stream, wave and number.
fn in_order<T: PrefixTree>(releases: Vec<Release<T>>) -> Vec<Release<T>>
    requires distinct { AreDistinct (releases_view T.tree releases.items) }
    ensures { IsSortedCopy (releases_view T.tree releases.items) (releases_view T.tree result.items) }
{
    let mut ordered = releases;
    ordered.sort_unstable_by_key(|release| (release.stream, release.wave, release.number));
    ordered
}
