//! The summary of a run of the generated job.

ghost use Rattle.std.specs.Prelude.{◌≡◌, ◌++◌, ℕ, IfOk, OnOk, filter, length};
ghost use Rattle.rank_set.specs.Ranks.{size};
ghost use Rattle.overlay_core.specs.TreeReleases.{release_view, releases_view};
ghost use Rattle.generated_job.specs.Job.{job_plan};
ghost use Rattle.generated_job.specs.Summary.{count_of, ends_stream, is_final, is_loss, is_partial, class_count, job_line, counts_line, plan_line, run_line, tree_counts, release_line, end_line, wave_lines, summary_text};

use crate::numbered::write_numbered;
use equiv_class::classes;
use overlay_core::{Kind, Release};
use overlay_event::{Event, Journal};
use prefix_tree::PrefixTree;
use std::alloc::{AllocError, Global};

// Appends the line of the seed and the size.
fn write_job(seed: u64, size: u32, out: &mut Vec<u8>) -> Result<(), AllocError>
    ensures { OnOk result (out.new.items ≡ out.old.items ++ job_line seed size) }
{
    write_numbered(b"gen seed ", seed, out)?;
    write_numbered(b" size ", size, out)?;
    out.push(b'\n')?;
    Ok(())
}

// Appends the line of a plan with this many nodes, ranks and lines of samples.
fn write_counts(nodes: u64, ranks: u64, lines: u64, out: &mut Vec<u8>) -> Result<(), AllocError>
    ensures { OnOk result (out.new.items ≡ out.old.items ++ counts_line nodes ranks lines) }
{
    write_numbered(b"nodes ", nodes, out)?;
    write_numbered(b" ranks ", ranks, out)?;
    write_numbered(b" lines ", lines, out)?;
    out.push(b'\n')?;
    Ok(())
}

// Appends the line of the job's plan, which is the same for each seed.
fn write_plan(size: u32, out: &mut Vec<u8>) -> Result<(), AllocError>
    ensures { OnOk result
        ((seed : ℕ) → out.new.items ≡ out.old.items ++ plan_line (job_plan seed size)) }
{
    let daemons = u64::from(size);
    let middle_nodes = daemons.div_ceil(16);
    write_counts(1 + middle_nodes + daemons, 64 * daemons, 128 * daemons, out)?;
    Ok(())
}

// Whether more of the wave can come.
fn is_partial(kind: Kind) -> bool
    ensures { result ≡ is_partial kind }
{
    matches!(kind, Kind::Partial)
}

// Whether the wave has ended.
fn is_final(kind: Kind) -> bool
    ensures { result ≡ is_final kind }
{
    matches!(kind, Kind::Final)
}

// Whether a node is lost.
fn is_loss(event: Event) -> bool
    ensures { result ≡ is_loss event }
{
    matches!(event, Event::Lose { .. })
}

// How many partial releases there are.
fn partial_count<T: PrefixTree>(releases: &[Release<T>]) -> u64
    ensures { result ≡ count_of is_partial (releases_view T.tree releases.now) }
{
    let mut count: u64 = 0;
    for release in releases {
        count += u64::from(is_partial(release.kind));
    }
    count
}

// How many final releases there are.
fn final_count<T: PrefixTree>(releases: &[Release<T>]) -> u64
    ensures { result ≡ count_of is_final (releases_view T.tree releases.now) }
{
    let mut count: u64 = 0;
    for release in releases {
        count += u64::from(is_final(release.kind));
    }
    count
}

// How many nodes a journal loses.
fn loss_count(journal: &Journal) -> u64
    ensures { result ≡ length (filter is_loss journal.now) }
{
    let mut count: u64 = 0;
    for i in 0..journal.len() {
        count += u64::from(is_loss(journal.at(i)));
    }
    count
}

// Appends the line of the run's events, releases and losses.
fn write_run<T: PrefixTree>(
    journal: &Journal,
    releases: &[Release<T>],
    out: &mut Vec<u8>,
) -> Result<(), AllocError>
    ensures { OnOk result
        (out.new.items ≡ out.old.items ++ run_line journal.now (releases_view T.tree releases.now)) }
{
    write_numbered(b"events ", journal.len(), out)?;
    write_numbered(b" partial ", partial_count(releases), out)?;
    write_numbered(b" final ", final_count(releases), out)?;
    write_numbered(b" lost ", loss_count(journal), out)?;
    out.push(b'\n')?;
    Ok(())
}

// How many ranks a tree covers.
fn covered_count<T: PrefixTree>(tree: &T) -> u32
    ensures { result ≡ size (T.tree tree.now).coverage }
{
    tree.row(0).label.count()
}

// How many classes a tree's ranks fall into.
fn class_count<T: PrefixTree>(alloc: Global, tree: &T) -> Result<usize, AllocError>
    ensures { IfOk result (λ count. count ≡ class_count (T.tree tree.now)) }
{
    let found = classes(alloc, tree)?;
    Ok(found.all.len())
}

// Appends the counts of a tree, and the line's end.
fn write_tree_counts<T: PrefixTree>(
    alloc: Global,
    tree: &T,
    out: &mut Vec<u8>,
) -> Result<(), AllocError>
    ensures { OnOk result (out.new.items ≡ out.old.items ++ tree_counts (T.tree tree.now)) }
{
    let class_count = class_count(alloc, tree)?;
    write_numbered(b" covered ", covered_count(tree), out)?;
    write_numbered(b" rows ", tree.rows(), out)?;
    write_numbered(b" classes ", class_count, out)?;
    out.push(b'\n')?;
    Ok(())
}

// Appends the line of a release.
fn write_release<T: PrefixTree>(
    alloc: Global,
    release: &Release<T>,
    out: &mut Vec<u8>,
) -> Result<(), AllocError>
    ensures { OnOk result (out.new.items ≡ out.old.items ++ release_line (release_view T.tree release.now)) }
{
    write_numbered(b"stream ", release.stream, out)?;
    write_numbered(b" wave ", release.wave, out)?;
    write_tree_counts(alloc, &release.tree, out)
}

// Whether a release is the final one of wave 0 of a stream.
fn ends_stream<T: PrefixTree>(s: u8, release: &Release<T>) -> bool
    ensures { result ≡ ends_stream s (release_view T.tree release.now) }
{
    is_final(release.kind) && release.stream == s && release.wave == 0
}

// Appends the line of a release where it is the final one of wave 0 of a stream.
fn write_end<T: PrefixTree>(
    alloc: Global,
    s: u8,
    release: &Release<T>,
    out: &mut Vec<u8>,
) -> Result<(), AllocError>
    ensures { OnOk result (out.new.items ≡ out.old.items ++ end_line s (release_view T.tree release.now)) }
{
    if !ends_stream(s, release) {
        return Ok(());
    }
    write_release(alloc, release, out)
}

// Appends the lines of a stream.
fn write_waves<T: PrefixTree>(
    alloc: Global,
    s: u8,
    releases: &[Release<T>],
    out: &mut Vec<u8>,
) -> Result<(), AllocError>
    ensures { OnOk result
        (out.new.items ≡ out.old.items ++ wave_lines s (releases_view T.tree releases.now)) }
{
    for release in releases {
        write_end(alloc, s, release, out)?;
    }
    Ok(())
}

/// The summary of a run of the job with this seed and size: the counts of its plan, of its journal and of its releases,
/// and for each of the two streams the counts of the tree that its final release has. Each line ends with a line feed.
///
/// # Errors
///
/// Only where memory runs out.
pub fn summary<T: PrefixTree>(
    alloc: Global,
    seed: u64,
    size: u32,
    journal: &Journal,
    releases: &[Release<T>],
) -> Result<Vec<u8>, AllocError>
    ensures { IfOk result
        (λ text. text.items ≡ summary_text seed size journal.now (releases_view T.tree releases.now)) }
{
    let mut out = Vec::new(alloc);
    write_job(seed, size, &mut out)?;
    write_plan(size, &mut out)?;
    write_run(journal, releases, &mut out)?;
    write_waves(alloc, 0, releases, &mut out)?;
    write_waves(alloc, 1, releases, &mut out)?;
    out.extend_from_slice(b"end\n")?;
    Ok(out)
}
