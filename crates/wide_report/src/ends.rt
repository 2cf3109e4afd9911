//! What stands around the pieces of the releases: the rest of the report, as that of no releases has it.
ghost use Rattle.std.specs.Prelude.{◌≡◌, ◌++◌, IfOk, [], drop};
ghost use Rattle.front_end.specs.Report.{report_text};
ghost use Rattle.wide_report.specs.Pieces.{IsJsonOf, IsTextOf, faults_in, json_text, losses_in};

use crate::report::WideReport;
use front_end::{direct_json, direct_text, report_json, report_text};
use overlay_core::Release;
use prefix_tree::PrefixTree;
use std::alloc::AllocError;

// How the JSON of a report of no releases ends. They stand before it.
const END: &[u8] = b"]}\n";

// The text of no releases: the lines of the faults that are shown, and the end.
fn end_text<T: PrefixTree>(report: &WideReport<'_>) -> Result<Vec<u8>, AllocError>
    ensures { IfOk result (λ text. IsTextOf report.now [] text.items) }
{
    let none: Vec<Release<T>> = Vec::new(report.alloc);
    if report.shows_faults {
        report_text(report.alloc, report.plan, &none, report.lost)
    } else {
        direct_text(report.alloc, report.plan, &none)
    }
}

/// The text of the releases, and behind it that of the faults that are shown, and the end.
pub fn text_before_end<T: PrefixTree>(
    report: &WideReport<'_>,
    text: Vec<u8>,
) -> Result<Vec<u8>, AllocError>
    ensures { IfOk result (λ whole. whole.items
        ≡ text.items ++ report_text report.now.plan.now (faults_in report.now) (losses_in report.now) []) }
{
    let end = end_text::<T>(report)?;
    let mut whole = text;
    whole.extend_from_slice(end.as_slice())?;
    Ok(whole)
}

// The JSON of no releases.
fn empty_json<T: PrefixTree>(report: &WideReport<'_>) -> Result<Vec<u8>, AllocError>
    ensures { IfOk result (λ text. IsJsonOf report.now [] text.items) }
{
    let none: Vec<Release<T>> = Vec::new(report.alloc);
    if report.shows_faults {
        report_json(report.alloc, report.plan, &none, report.lost)
    } else {
        direct_json(report.alloc, report.plan, &none)
    }
}

// Bytes without the first of them.
fn after_first(bytes: &[u8]) -> &[u8]
    ensures { result.now ≡ drop 1 bytes.now }
{
    match bytes.split_first() {
        Some((_, rest)) => rest,
        None => &[],
    }
}

/// The JSON of the faults that are shown and of the releases, whose pieces each have a comma before them.
pub fn json_around<T: PrefixTree>(
    report: &WideReport<'_>,
    pieces: &[u8],
) -> Result<Vec<u8>, AllocError>
    ensures { IfOk result (λ text. text.items
        ≡ json_text report.now.plan.now (faults_in report.now) (losses_in report.now) (drop 1 pieces.now)) }
{
    let mut text = empty_json::<T>(report)?;
    text.truncate(text.len().saturating_sub(END.len()));
    text.extend_from_slice(after_first(pieces))?;
    text.extend_from_slice(END)?;
    Ok(text)
}
