//! Pieces of releases, by halves on threads.
ghost use Rattle.std.specs.Prelude.{◌≡◌, ◌++◌, IfOk, OnOk};
ghost use Rattle.std.specs.Thread.{IsSend, IsSync};
ghost use Rattle.overlay_core.specs.TreeReleases.{release_view};
ghost use Rattle.wide_report.specs.Pieces.{piece, pieces};

use crate::report::WideReport;
use front_end::{release_json, write_release};
use overlay_core::Release;
use prefix_tree::PrefixTree;
use std::alloc::AllocError;
use std::mem;
use std::thread::{Threads, join};

/// In which form a report is written.
#[derive(Clone, Copy)]
pub enum Form {
    /// As text.
    Text,
    /// As JSON.
    Json,
}

// Appends the piece of a release.
fn write_piece<T: PrefixTree>(
    report: &WideReport<'_>,
    form: Form,
    release: &Release<T>,
    out: &mut Vec<u8>,
) -> Result<(), AllocError>
    ensures { OnOk result
        (out.new.items ≡ out.old.items ++ piece form report.now.plan.now (release_view T.tree release.now)) }
{
    match form {
        Form::Text => write_release(report.plan, release, out),
        Form::Json => {
            let text = release_json(report.alloc, report.plan, release)?;
            out.push(b',')?;
            out.extend_from_slice(text.as_slice())
        }
    }
}

// For how many bytes of a part room is made before the first of them.
const ROOM: usize = 98_304;

// The pieces of some releases, by one thread.
fn one_part<T: PrefixTree>(
    report: &WideReport<'_>,
    form: Form,
    releases: &[Release<T>],
) -> Result<Vec<u8>, AllocError>
    ensures { IfOk result (λ text. text.items ≡ pieces T.tree form report.now.plan.now releases.now) }
{
    let mut text = Vec::with_capacity(report.alloc, ROOM)?;
    for release in releases {
        write_piece(report, form, release, &mut text)?;
    }
    Ok(text)
}

/// The pieces of some releases, one after another, by so many threads: while there are several, both halves are written
/// at once.
pub fn wide_part<R: Threads + Sync, T: PrefixTree>(
    rt: &R,
    report: &WideReport<'_>,
    form: Form,
    releases: Vec<Release<T>>,
    workers: u32,
) -> Result<Vec<u8>, AllocError>
    ensures { IfOk result (λ text. text.items ≡ pieces T.tree form report.now.plan.now releases.items) }
{
    if workers < 2 || releases.len() < 2 {
        let text = one_part(report, form, &releases)?;
        // the system takes all memory back at once when the program ends
        mem::forget(releases);
        return Ok(text);
    }
    let mut front = releases;
    let back = front.split_off(front.len() / 2)?;
    let fewer = workers / 2;
    let more = workers - fewer;
    let (text, rest) = join(
        rt,
        move || -> Result<Vec<u8>, AllocError>
            requires { IsSync R.row × IsSend T.row }
            ensures { IfOk result (λ text. text.items ≡ pieces T.tree form report.entry.now.plan.now front.items) }
        { wide_part(rt, report, form, front, fewer) },
        move || -> Result<Vec<u8>, AllocError>
            requires { IsSync R.row × IsSend T.row }
            ensures { IfOk result (λ text. text.items ≡ pieces T.tree form report.entry.now.plan.now back.items) }
        { wide_part(rt, report, form, back, more) },
    );
    let mut text = text?;
    let rest = rest?;
    text.extend_from_slice(rest.as_slice())?;
    Ok(text)
}
