//! Reads sets of ranks: items separated by `,`, each a number or `a-b`, in any order, where ranges may overlap.

ghost use Rattle.rank_set.specs.Ranks.{none, union};
ghost use Rattle.rank_set.specs.Runs.{ranks_between, IsRunInRange, with_pending};
ghost use Rattle.rank_set.specs.Digits.{digits_len};
ghost use Rattle.rank_set.specs.RanksText.{number_at, ends_at, after_first, item_at, item_len, items, ranks_at, ranks_text};
ghost use Rattle.rank_set.specs.declared.read.RanksError.TheVariants.{OutOfMemory};
ghost use Rattle.std.specs.Prelude.{◌≡◌, ◌<◌, ◌≤◌, ◌+◌, ◌-◌, ◌^◌, ◌≢◌, ℕ, length, take, IfOk, IfErr, IfSome, OnOk, Ok, Err};

use crate::digits::capped_number;
use crate::{RANK_LIMIT, RankSet, Run};
use std::alloc::{AllocError, Global};

/// Why a text of ranks is refused. Byte offsets are at most the length of the text.
#[derive(Debug, PartialEq, Eq, Clone, Copy)]
pub enum RanksError {
    /// The text is empty.
    Empty,
    /// At this offset there is no digit where one must be, or a byte that cannot follow a number.
    BadNumber(usize),
    /// The number at this offset, an item's second, is less than its first.
    Backward(usize),
    /// The number at this offset is `RANK_LIMIT` or more.
    OverLimit(usize),
    /// Out of memory; the text may contain an error further on.
    OutOfMemory,
}

impl From<AllocError> for RanksError {
    ghost use Rattle.std.specs.Prelude.{◌≡◌};
    ghost use Rattle.rank_set.specs.declared.read.RanksError.TheVariants.{OutOfMemory};

    ghost from_gives = { λ _ e. e ≡ OutOfMemory };

    fn from(_: AllocError) -> Self {
        RanksError::OutOfMemory
    }
}

// How many bytes of a text an item takes with its comma, about: so much room is made for the runs at once.
const ITEM_BYTES: usize = 6;

// The number that must stand at an offset, and how many digits it has.
fn number_at(offset: usize, text: &[u8]) -> Result<(u32, usize), RanksError>
    ensures ok { IfOk result (λ n. number_at offset text.now ≡ Ok n.0) }
    ensures below_limit { IfOk result (λ n. n.0 < RANK_LIMIT) }
    ensures len { IfOk result (λ n. n.1 ≡ digits_len text.now) }
    ensures within { IfOk result (λ n. n.1 ≤ length text.now) }
    ensures err { IfErr result (λ e. number_at offset text.now ≡ Err e) }
{
    let (number, len) = capped_number(text, RANK_LIMIT);
    if len == 0 {
        return Err(RanksError::BadNumber(offset));
    }
    if number >= RANK_LIMIT {
        return Err(RanksError::OverLimit(offset));
    }
    Ok((number, len))
}

// The ranks of an item that begins at an offset.
fn item_at(offset: usize, item: &[u8]) -> Result<Run, RanksError>
    requires { offset + length item.now < 2 ^ 64 }
    ensures ok { IfOk result (λ run. item_at offset item.now ≡ Ok (run.first, run.last)) }
    ensures not_empty { IfOk result (λ run. run.first ≤ run.last) }
    ensures below_limit { IfOk result (λ run. run.last < RANK_LIMIT) }
    ensures err { IfErr result (λ e. item_at offset item.now ≡ Err e) }
{
    let (first, len) = number_at(offset, item)?;
    let (_, rest) = item.split_at(len);
    let Some((dash, text)) = rest.split_first() else {
        return Ok(Run { first, last: first });
    };
    if *dash != b'-' {
        return Err(RanksError::BadNumber(offset + len));
    }
    let (last, last_len) = number_at(offset + len + 1, text)?;
    if last < first {
        return Err(RanksError::Backward(offset + len + 1));
    }
    let (_, end) = text.split_at(last_len);
    if !end.is_empty() {
        return Err(RanksError::BadNumber(offset + len + 1 + last_len));
    }
    Ok(Run { first, last })
}

// The first item of a text and its length, if it is a number alone.
#[inline(always)]
fn number_item(text: &[u8]) -> Option<(u32, usize)>
    ensures len { IfSome result (λ n. n.1 ≡ item_len text.now) }
    ensures item { IfSome result (λ n. (offset : ℕ)
        → item_at offset (take (item_len text.now) text.now) ≡ Ok (n.0, n.0)) }
    ensures below_limit { IfSome result (λ n. n.0 < RANK_LIMIT) }
{
    let (number, len) = capped_number(text, RANK_LIMIT);
    if len == 0 || number >= RANK_LIMIT {
        return None;
    }
    let (_, rest) = text.split_at(len);
    if rest.is_empty() {
        return Some((number, len));
    }
    if rest[0] != b',' {
        return None;
    }
    Some((number, len))
}

// The ranks of the first item of a text, which begins at an offset, and its length.
#[inline(always)]
fn first_item(offset: usize, text: &[u8]) -> Result<(Run, usize), RanksError>
    requires { offset + length text.now < 2 ^ 64 }
    ensures len { IfOk result (λ item. item.1 ≡ item_len text.now) }
    ensures ok { IfOk result (λ item. item_at offset (take (item_len text.now) text.now)
        ≡ Ok (item.0.first, item.0.last)) }
    ensures in_range { IfOk result (λ item. IsRunInRange item.0.first item.0.last) }
    ensures err { IfErr result (λ e. item_at offset (take (item_len text.now) text.now) ≡ Err e) }
{
    if let Some((rank, len)) = number_item(text) {
        let run = Run {
            first: rank,
            last: rank,
        };
        return Ok((run, len));
    }
    let len = item_len(text);
    let (item, _) = text.split_at(len);
    let run = item_at(offset, item)?;
    Ok((run, len))
}

// The number of bytes before the next comma.
fn item_len(text: &[u8]) -> usize
    ensures value { result ≡ item_len text.now }
    ensures within { result ≤ length text.now }
{
    text.iter().take_while(|b| **b != b',').count()
}

// Adds the ranks of a run. They are kept back in the pending run, which takes what overlaps or touches it, and are put
// into the set once another run comes.
fn add_run(ranks: &mut RankSet, pending: &mut Option<Run>, run: Run) -> Result<(), AllocError>
    requires pending { IfSome pending.old (λ p. IsRunInRange p.first p.last) }
    requires run { IsRunInRange run.first run.last }
    ensures pending { IfSome pending.new (λ p. IsRunInRange p.first p.last) }
    ensures ok { OnOk result
        (with_pending ranks.new pending.new
        ≡ union (with_pending ranks.old pending.old) (ranks_between run.first run.last)) }
{
    let Some(old) = *pending else {
        *pending = Some(run);
        return Ok(());
    };
    if old.last + 1 < run.first || run.last + 1 < old.first {
        ranks.collect_run(old.first, old.last)?;
        *pending = Some(run);
        return Ok(());
    }
    *pending = Some(Run {
        first: old.first.min(run.first),
        last: old.last.max(run.last),
    });
    Ok(())
}

// Puts the pending run into the set.
fn put_pending(ranks: &mut RankSet, pending: Option<Run>) -> Result<(), AllocError>
    requires { IfSome pending (λ p. IsRunInRange p.first p.last) }
    ensures { OnOk result (ranks.new ≡ with_pending ranks.old pending) }
{
    match pending {
        Some(run) => ranks.collect_run(run.first, run.last),
        None => Ok(()),
    }
}

// The ranks of a text that is one item, where these take no allocation. None for other texts, and for one that is
// refused.
fn read_one_item(alloc: Global, text: &[u8]) -> Option<RankSet>
    requires { 0 < length text.now }
    ensures { IfSome result (λ ranks. ranks_text text.now ≡ Ok ranks) }
{
    match item_at(0, text) {
        Ok(run) => RankSet::of_run(alloc, run.first, run.last),
        Err(_) => None,
    }
}

// Adds the ranks of all items. On failure the set may have some of them.
fn read_items(text: &[u8], ranks: &mut RankSet) -> Result<(), RanksError>
    ensures ok { OnOk result (ranks_at 0 ranks.old (items text.now) ≡ Ok ranks.new) }
    ensures err { IfErr result (λ e. e ≢ OutOfMemory → ranks_at 0 ranks.old (items text.now) ≡ Err e) }
{
    let mut offset = 0;
    let mut rest = text;
    let mut pending = None;
    loop {
        let (run, len) = first_item(offset, rest)?;
        let (_, after) = rest.split_at(len);
        add_run(ranks, &mut pending, run)?;
        let Some((_, next)) = after.split_first() else {
            put_pending(ranks, pending)?;
            return Ok(());
        };
        offset += len + 1;
        rest = next;
    }
}

/// The ranks of a text, as `7,0-2,1`: in any order, with overlaps, with any number of leading zeros. It is read from
/// the left and refused at its first error. Items that overlap or touch what came right before cost no more than their
/// digits.
pub fn read_ranks(alloc: Global, text: &[u8]) -> Result<RankSet, RanksError>
    ensures ok { IfOk result (λ ranks. ranks_text text.now ≡ Ok ranks) }
    ensures err { IfErr result (λ e. e ≢ OutOfMemory → ranks_text text.now ≡ Err e) }
{
    if text.is_empty() {
        return Err(RanksError::Empty);
    }
    if let Some(ranks) = read_one_item(alloc, text) {
        return Ok(ranks);
    }
    let mut ranks = RankSet::with_run_capacity(alloc, text.len() / ITEM_BYTES)?;
    read_items(text, &mut ranks)?;
    ranks.settle();
    Ok(ranks)
}
