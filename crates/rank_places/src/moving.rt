//! Moves numbers between a cover and the places in it.

ghost use Rattle.std.specs.Prelude.{◌≡◌, ◌≢◌, ℕ, ◌+◌, ◌-◌, ◌*◌, ◌/◌, ◌<◌, ◌≤◌, true, [], ◌∷◌, OnOk, IfOk};
ghost use Rattle.rank_set.specs.Ranks.{none, has, union};
ghost use Rattle.rank_set.specs.Words.{ranks_in, offset_of, AreWords};
ghost use Rattle.rank_set.specs.WordLists.{words_of};
ghost use Rattle.rank_places.specs.Table.{ArePlaced, cover_of, inside, Becomes, image, AreMoved};
ghost use Rattle.rank_places.specs.Collected.{collected, IsCollected};

use crate::collected::Collected;
use crate::table::{PlacedRun, Shift, find, shift_at, shift_with};
use rank_set::{RankSet, WORD_LIMIT};
use std::alloc::{AllocError, Global};

/// Which way numbers are moved.
#[derive(Clone, Copy)]
pub(crate) struct Way<'a> {
    /// The runs of the cover, with their places.
    pub runs: &'a [PlacedRun],
    /// From places to ranks, and not from ranks to places.
    pub back: bool,
}

// Adds what the numbers of a word become, where it was a run before whose shift is given. It gives the shift of the run
// that the last of them is in.
fn put_moved(
    way: Way<'_>,
    before: Shift,
    index: u32,
    word: u64,
    out: &mut Collected,
) -> Result<Shift, AllocError>
    requires placed { ArePlaced 0 0 way.runs.now }
    requires moves { AreMoved way.back (cover_of way.runs.now) before.first before.last before.target }
    requires within_limit { index < WORD_LIMIT }
    requires inside { (x : ℕ) → has (ranks_in index (word ∷ [])) x ≡ true
        → inside way.back (cover_of way.runs.now) x ≡ true }
    requires good { IsCollected out.old }
    requires above { (q x y : ℕ) → has (collected out.old) q ≡ true → 64 * index ≤ x
        → Becomes way.back (cover_of way.runs.now) x y → q < y }
    ensures moves { IfOk result
        (λ after. AreMoved way.entry.back (cover_of way.entry.runs.now) after.first after.last after.target) }
    ensures good { OnOk result (IsCollected out.new) }
    ensures numbers { OnOk result
        (collected out.new ≡ union (collected out.old)
        (image way.entry.back (cover_of way.entry.runs.now) (ranks_in index (word ∷ [])))) }
{
    let mut run = before;
    let mut from = 64 * index;
    let mut rest = word;
    while rest != 0 {
        let zeros = rest.trailing_zeros();
        let first = from + zeros;
        run = shift_with(way.runs, way.back, run, first);
        let len = (run.last - first).min(63 - zeros);
        let bits = rest >> zeros;
        out.put(
            run.target + (first - run.first),
            bits & u64::MAX >> (63 - len),
        )?;
        rest = bits >> len >> 1;
        from = first + len + 1;
    }
    Ok(run)
}

// What the numbers of a set become that lie in one run, which is moved by whole words.
fn moved_words(set: &RankSet, run: Shift) -> Result<RankSet, AllocError>
    requires some { set.now ≢ none }
    requires start { run.first / 64 ≤ offset_of set.now }
    requires below_limit { (x : ℕ) → has set.now x ≡ true → run.target / 64 + (x / 64 - run.first / 64) < WORD_LIMIT }
    ensures { IfOk result
        (λ moved. moved ≡ ranks_in (run.target / 64 + (offset_of set.now - run.first / 64)) (words_of set.now)) }
{
    // for the proof: the numbers are below the limit of ranks
    set.invariant();
    set.at_word(run.target / 64 + (set.word_offset() - run.first / 64))
}

/// What the numbers of a set become: places of the ranks of the cover, or ranks at places. It goes by the runs of the
/// set where it has no words, or where what they become is scattered.
pub(crate) fn moved(
    alloc: Global,
    way: Way<'_>,
    set: &RankSet,
    scattered: bool,
) -> Result<RankSet, AllocError>
    requires placed { ArePlaced 0 0 way.runs.now }
    requires inside { (x : ℕ) → has set.now x ≡ true → inside way.back (cover_of way.runs.now) x ≡ true }
    ensures { IfOk result (λ moved. moved ≡ image way.entry.back (cover_of way.entry.runs.now) set.now) }
{
    // for the proof: the numbers are below the limit of ranks
    set.invariant();
    let Some(first) = set.first() else {
        return Ok(RankSet::new(alloc));
    };
    let at = find(way.runs, way.back, 0, first);
    let run = shift_at(way.runs, way.back, at, first);
    if at + 1 == way.runs.len() && run.first % 64 == run.target % 64 {
        return moved_words(set, run);
    }
    if let Some(words) = set.held_words()
        && !scattered
    {
        return moved_bits(alloc, way, run, set, words);
    }
    moved_runs(alloc, way, run, set)
}

// What the numbers of a set become, run by run. The shift is that of any run.
fn moved_runs(
    alloc: Global,
    way: Way<'_>,
    before: Shift,
    set: &RankSet,
) -> Result<RankSet, AllocError>
    requires placed { ArePlaced 0 0 way.runs.now }
    requires moves { AreMoved way.back (cover_of way.runs.now) before.first before.last before.target }
    requires inside { (x : ℕ) → has set.now x ≡ true → inside way.back (cover_of way.runs.now) x ≡ true }
    ensures { IfOk result (λ moved. moved ≡ image way.entry.back (cover_of way.entry.runs.now) set.now) }
{
    let mut out = RankSet::with_run_capacity(alloc, 1)?;
    let mut shift = before;
    let (mut from, mut hint) = (0, 0);
    while let Some(run) = set.next_run_near(from, &mut hint) {
        shift = shift_with(way.runs, way.back, shift, run.first);
        let len = run.last.min(shift.last) - run.first;
        let target = shift.target + (run.first - shift.first);
        out.collect_run(target, target + len)?;
        from = run.first + len + 1;
    }
    out.settle();
    Ok(out)
}

// What the numbers of a set become, whose words are given, bit by bit where they must. The shift is that of any run.
fn moved_bits(
    alloc: Global,
    way: Way<'_>,
    before: Shift,
    set: &RankSet,
    words: &[u64],
) -> Result<RankSet, AllocError>
    requires placed { ArePlaced 0 0 way.runs.now }
    requires moves { AreMoved way.back (cover_of way.runs.now) before.first before.last before.target }
    requires trimmed { AreWords (offset_of set.now) words.now }
    requires words { ranks_in (offset_of set.now) words.now ≡ set.now }
    requires inside { (x : ℕ) → has set.now x ≡ true → inside way.back (cover_of way.runs.now) x ≡ true }
    ensures { IfOk result (λ moved. moved ≡ image way.entry.back (cover_of way.entry.runs.now) set.now) }
{
    let mut out = Collected::new(alloc);
    let mut run = before;
    let mut index = set.word_offset();
    for word in words {
        run = put_moved(way, run, index, *word, &mut out)?;
        index += 1;
    }
    out.finish(alloc)
}
