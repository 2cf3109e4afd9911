//! Rank sets as words of 64 bits: functions over the index of the first word among all words, and the words.

ghost use Rattle.std.specs.Prelude.{◌≡◌, ℕ, ◌<◌, ◌≤◌, ◌+◌, ◌-◌, ◌*◌, ◌/◌, ◌↔◌, ◌++◌, true, false, OnOk, OnErr, IfOk, IfSome, IfNone, Some, slice_get, not, length, get_or, replicate, bit_or};
ghost use Rattle.rank_set.specs.Ranks.{none, has, those, union, in_order, is_empty, is_subset, size};
ghost use Rattle.rank_set.specs.Runs.{ranks_between, IsRun, up_to};
ghost use Rattle.rank_set.specs.Words.{word_at, bit_in, ranks_in, AreWords, ExtendsTo, IsNext, offset_of, run_word, spans, IsOverlap};
ghost use Rattle.rank_set.specs.WordLists.{words_of};

use crate::{RANK_LIMIT, Run, WORD_LIMIT};
use smallvec::SmallVec;
use std::alloc::{AllocError, Global};

/// The words of a set: a single one is stored in the set itself, without an allocation.
pub(crate) type Words = SmallVec<u64, 1>;

/// The same words once more. Most sets have one word at most, and are copied without a loop.
#[inline]
pub(crate) fn copy_of(alloc: Global, words: &[u64]) -> Result<Words, AllocError>
    ensures { IfOk result (λ copy. copy.items ≡ words.now) }
{
    match words {
        [] => Ok(Words::new(alloc)),
        [word] => Ok(Words::from_buf(alloc, [*word])),
        _ => Words::from_slice(alloc, words),
    }
}

// Word k, or 0 outside the stored words.
pub(crate) fn word_of(offset: u32, words: &[u64], k: u32) -> u64
    ensures { result ≡ word_at offset words.now k }
{
    if k < offset {
        return 0;
    }
    match words.get((k - offset) as usize) {
        Some(word) => *word,
        None => 0,
    }
}

// How many words of 0 are appended at once, where so many are wanted.
const ZEROS: usize = 16;

// Appends words of 0 up to a length. On failure the words are unchanged.
fn pad(words: &mut Words, len: usize) -> Result<(), AllocError>
    requires { length words.old.items ≤ len }
    ensures ok { OnOk result (words.new.items ≡ words.old.items ++ replicate (len - length words.old.items) 0) }
    ensures err { OnErr result (words.new.items ≡ words.old.items) }
{
    words.reserve(len - words.len())?;
    while len - words.len() >= ZEROS {
        let Ok(()) = words.extend_from_slice(&[0; ZEROS]) else {
            unreachable!()
        };
    }
    while words.len() < len {
        words.push_reserved(0);
    }
    Ok(())
}

// The words from one index up to another, with zeros where no words are stored.
fn padded(
    alloc: Global,
    offset: u32,
    words: &[u64],
    start: u32,
    stop: u32,
) -> Result<Words, AllocError>
    requires begins { 0 < length words.now → start ≤ offset }
    requires stops { offset + length words.now ≤ stop }
    requires ordered { start ≤ stop }
    ensures same { IfOk result (λ all. (k : ℕ) → word_at start all.items k ≡ word_at offset words.now k) }
    ensures len { IfOk result (λ all. start + length all.items ≡ stop) }
{
    let mut all = Words::with_capacity(alloc, (stop - start) as usize)?;
    pad(&mut all, offset.saturating_sub(start) as usize)?;
    all.extend_from_slice(words)?;
    pad(&mut all, (stop - start) as usize)?;
    Ok(all)
}

// A copy of the words that spans from one index up to another at least, and the index of its first word.
fn reaching(
    alloc: Global,
    offset: u32,
    words: &[u64],
    low: u32,
    high: u32,
) -> Result<(u32, Words), AllocError>
    requires trimmed { AreWords offset words.now }
    requires not_empty { low < high }
    requires within_limit { high ≤ WORD_LIMIT }
    ensures { IfOk result (λ all. ExtendsTo offset words.now low high all.0 all.1.items) }
{
    let start = if words.is_empty() {
        low
    } else {
        low.min(offset)
    };
    let stop = high.max(offset + words.len() as u32);
    let all = padded(alloc, offset, words, start, stop)?;
    Ok((start, all))
}

// Extends the words to reach from one index up to another, which they don't yet. On failure they are unchanged. At the
// end they grow with room for more.
#[inline(never)]
fn grow_to(offset: &mut u32, words: &mut Words, low: u32, high: u32) -> Result<(), AllocError>
    requires trimmed { AreWords offset.old words.old.items }
    requires not_empty { low < high }
    requires within_limit { high ≤ WORD_LIMIT }
    ensures ok { OnOk result (ExtendsTo offset.old words.old.items low high offset.new words.new.items) }
    ensures err_offset { OnErr result (offset.new ≡ offset.old) }
    ensures err_words { OnErr result (words.new.items ≡ words.old.items) }
{
    if words.is_empty() {
        pad(words, (high - low) as usize)?;
        *offset = low;
        return Ok(());
    }
    if low < *offset {
        let (start, all) = reaching(*words.allocator(), *offset, words.as_slice(), low, high)?;
        *offset = start;
        *words = all;
        return Ok(());
    }
    let len = (high - *offset) as usize;
    if words.len() < len {
        pad(words, len)?;
    }
    Ok(())
}

// The same, where most often they reach that far.
#[inline(always)]
fn extend_to(offset: &mut u32, words: &mut Words, low: u32, high: u32) -> Result<(), AllocError>
    requires trimmed { AreWords offset.old words.old.items }
    requires not_empty { low < high }
    requires within_limit { high ≤ WORD_LIMIT }
    ensures ok { OnOk result (ExtendsTo offset.old words.old.items low high offset.new words.new.items) }
    ensures err_offset { OnErr result (offset.new ≡ offset.old) }
    ensures err_words { OnErr result (words.new.items ≡ words.old.items) }
{
    if *offset <= low && high <= *offset + words.len() as u32 {
        return Ok(());
    }
    grow_to(offset, words, low, high)
}

// Sets the bits of the other words.
fn or_words(words: &mut [u64], offset: u32, other_offset: u32, others: &[u64])
    requires begins { offset ≤ other_offset }
    requires stops { other_offset + length others.now ≤ offset + length words.old }
    ensures { (j : ℕ)
        → get_or words.new j 0 ≡ bit_or (get_or words.old j 0) (word_at other_offset others.now (offset + j)) }
{
    let at = (other_offset - offset) as usize;
    or_each(&mut words[at..at + others.len()], others);
}

// Sets in each word the bits of the other word at its place. There are as many others, so that several are done at
// once.
#[inline(always)]
fn or_each(words: &mut [u64], others: &[u64])
    requires { length words.old ≡ length others.now }
    ensures { (j : ℕ) → get_or words.new j 0 ≡ bit_or (get_or words.old j 0) (get_or others.now j 0) }
{
    for (i, word) in others.iter().enumerate() {
        words[i] |= *word;
    }
}

// Word k of the ranks from the first to the last, which has some of them.
fn word_of_run(first: u32, last: u32, k: u32) -> u64
    requires not_empty { first ≤ last }
    requires begins { first / 64 ≤ k }
    requires stops { k ≤ last / 64 }
    ensures { result ≡ run_word first last k }
{
    let from = if k == first / 64 { first % 64 } else { 0 };
    let to = if k == last / 64 { last % 64 } else { 63 };
    u64::MAX << from & u64::MAX >> (63 - to)
}

// The word of the ranks from the first to the last, which lie in one word.
pub(crate) fn one_word(alloc: Global, first: u32, last: u32) -> Words
    requires not_empty { first ≤ last }
    requires below_limit { last < RANK_LIMIT }
    requires one { first / 64 ≡ last / 64 }
    ensures trimmed { AreWords (first / 64) result.items }
    ensures ranks { ranks_in (first / 64) result.items ≡ union none (ranks_between first last) }
{
    Words::from_buf(alloc, [word_of_run(first, last, first / 64)])
}

// Sets the bits of the ranks from the first to the last.
#[inline(always)]
fn or_run(words: &mut [u64], offset: u32, first: u32, last: u32)
    requires not_empty { first ≤ last }
    requires begins { offset ≤ first / 64 }
    requires stops { last / 64 < offset + length words.old }
    ensures { (j : ℕ) → get_or words.new j 0 ≡ bit_or (get_or words.old j 0) (run_word first last (offset + j)) }
{
    let (low, high) = (first / 64, last / 64);
    words[(low - offset) as usize] |= word_of_run(first, last, low);
    for k in low + 1..high {
        words[(k - offset) as usize] |= u64::MAX;
    }
    if low < high {
        words[(high - offset) as usize] |= word_of_run(first, last, high);
    }
}

// The ranks of both, in just the words from the first that is needed to the last.
pub(crate) fn united(
    alloc: Global,
    offset: u32,
    words: &[u64],
    other_offset: u32,
    others: &[u64],
) -> Result<(u32, Words), AllocError>
    requires trimmed { AreWords offset words.now }
    requires trimmed_others { AreWords other_offset others.now }
    ensures trimmed { IfOk result (λ all. AreWords all.0 all.1.items) }
    ensures ranks { IfOk result (λ all. ranks_in all.0 all.1.items
        ≡ union (ranks_in offset words.now) (ranks_in other_offset others.now)) }
{
    if others.is_empty() {
        let all = copy_of(alloc, words)?;
        return Ok((offset, all));
    }
    let end = other_offset + others.len() as u32;
    let (start, mut all) = reaching(alloc, offset, words, other_offset, end)?;
    or_words(all.as_mut_slice(), start, other_offset, others);
    Ok((start, all))
}

// Whether all of the other ranks lie in the words from the first to the last.
pub(crate) fn spans(offset: u32, words: &[u64], other_offset: u32, others: &[u64]) -> bool
    requires trimmed { AreWords offset words.now }
    requires trimmed_others { AreWords other_offset others.now }
    ensures { result ≡ spans (ranks_in offset words.now) (ranks_in other_offset others.now) }
{
    others.is_empty()
        || offset <= other_offset
            && other_offset + others.len() as u32 <= offset + words.len() as u32
}

// Sets the bits of the other words, which lie within the words.
pub(crate) fn or_within(words: &mut [u64], offset: u32, other_offset: u32, others: &[u64])
    requires trimmed { AreWords offset words.old }
    requires trimmed_others { AreWords other_offset others.now }
    requires spans { spans (ranks_in offset words.old) (ranks_in other_offset others.now) ≡ true }
    ensures trimmed { AreWords offset words.new }
    ensures ranks { ranks_in offset words.new
        ≡ union (ranks_in offset words.old) (ranks_in other_offset others.now) }
{
    if others.is_empty() {
        return;
    }
    or_words(words, offset, other_offset, others);
}

// Adds the ranks of the other words. On failure the words are unchanged.
#[inline(never)]
pub(crate) fn add_words(
    offset: &mut u32,
    words: &mut Words,
    other_offset: u32,
    others: &[u64],
) -> Result<(), AllocError>
    requires trimmed { AreWords offset.old words.old.items }
    requires trimmed_others { AreWords other_offset others.now }
    ensures trimmed { AreWords offset.new words.new.items }
    ensures ok { OnOk result
        (ranks_in offset.new words.new.items
        ≡ union (ranks_in offset.old words.old.items) (ranks_in other_offset others.now)) }
    ensures err { OnErr result (ranks_in offset.new words.new.items ≡ ranks_in offset.old words.old.items) }
{
    if others.is_empty() {
        return Ok(());
    }
    if words.is_empty() {
        *words = copy_of(*words.allocator(), others)?;
        *offset = other_offset;
        return Ok(());
    }
    if spans(*offset, words.as_slice(), other_offset, others) {
        or_within(words.as_mut_slice(), *offset, other_offset, others);
        return Ok(());
    }
    extend_to(
        offset,
        words,
        other_offset,
        other_offset + others.len() as u32,
    )?;
    or_words(words.as_mut_slice(), *offset, other_offset, others);
    Ok(())
}

// Adds the ranks from the first to the last. On failure the words are unchanged.
pub(crate) fn add_run(
    offset: &mut u32,
    words: &mut Words,
    first: u32,
    last: u32,
) -> Result<(), AllocError>
    requires trimmed { AreWords offset.old words.old.items }
    requires not_empty { first ≤ last }
    requires below_limit { last < RANK_LIMIT }
    ensures trimmed { AreWords offset.new words.new.items }
    ensures ok { OnOk result
        (ranks_in offset.new words.new.items
        ≡ union (ranks_in offset.old words.old.items) (ranks_between first last)) }
    ensures err { OnErr result (ranks_in offset.new words.new.items ≡ ranks_in offset.old words.old.items) }
{
    extend_to(offset, words, first / 64, last / 64 + 1)?;
    or_run(words.as_mut_slice(), *offset, first, last);
    Ok(())
}

// Where words overlap with others: the index of the first word in each, and how many words both have.
#[derive(Clone, Copy)]
struct Overlap {
    index: usize,
    other_index: usize,
    len: usize,
}

// Where the words overlap with the others.
fn common_words(offset: u32, words: &[u64], other_offset: u32, others: &[u64]) -> Overlap
    ensures { IsOverlap offset words.now other_offset others.now result.index result.other_index result.len }
{
    let index = words
        .len()
        .min(other_offset.saturating_sub(offset) as usize);
    let other_index = others
        .len()
        .min(offset.saturating_sub(other_offset) as usize);
    Overlap {
        index,
        other_index,
        len: (words.len() - index).min(others.len() - other_index),
    }
}

// Clears the bits that the other words have.
pub(crate) fn clear_words(words: &mut [u64], offset: u32, other_offset: u32, others: &[u64])
    requires { offset + length words.old ≤ WORD_LIMIT }
    ensures { ranks_in offset words.new
        ≡ those (λ r. not (has (ranks_in other_offset others.now) r)) (ranks_in offset words.old) }
{
    let common = common_words(offset, words, other_offset, others);
    for i in 0..common.len {
        words[common.index + i] &= !others[common.other_index + i];
    }
}

// Clears the bits that the other words do not have.
pub(crate) fn intersect_words(words: &mut [u64], offset: u32, other_offset: u32, others: &[u64])
    requires { offset + length words.old ≤ WORD_LIMIT }
    ensures { ranks_in offset words.new
        ≡ those (λ r. has (ranks_in other_offset others.now) r) (ranks_in offset words.old) }
{
    let common = common_words(offset, words, other_offset, others);
    for i in 0..common.index {
        words[i] = 0;
    }
    for i in 0..common.len {
        words[common.index + i] &= others[common.other_index + i];
    }
    for i in common.index + common.len..words.len() {
        words[i] = 0;
    }
}

// Whether no bit is one of the other words' too.
pub(crate) fn are_disjoint(offset: u32, words: &[u64], other_offset: u32, others: &[u64]) -> bool
    ensures { result
        ≡ is_empty (those (λ r. has (ranks_in other_offset others.now) r) (ranks_in offset words.now)) }
{
    let common = common_words(offset, words, other_offset, others);
    for i in 0..common.len {
        if words[common.index + i] & others[common.other_index + i] != 0 {
            return false;
        }
    }
    true
}

// The number of leading zero words.
fn zeros_in_front(words: &[u64]) -> usize
    ensures within { result ≤ length words.now }
    ensures zeros { (j : ℕ) → j < result → get_or words.now j 0 ≡ 0 }
    ensures word { result < length words.now → 0 < get_or words.now result 0 }
{
    for (i, word) in words.iter().enumerate() {
        if *word != 0 {
            return i;
        }
    }
    words.len()
}

// The number of words without the trailing zeros.
fn without_zeros_at_end(words: &[u64]) -> usize
    ensures within { result ≤ length words.now }
    ensures zeros { (j : ℕ) → result ≤ j → get_or words.now j 0 ≡ 0 }
    ensures word { 0 < result → 0 < get_or words.now (result - 1) 0 }
{
    let mut n = words.len();
    while n > 0 && words[n - 1] == 0 {
        n -= 1;
    }
    n
}

// Removes the zero words at both ends.
pub(crate) fn trim(offset: &mut u32, words: &mut Words)
    requires { offset.old + length words.old.items ≤ WORD_LIMIT }
    ensures trimmed { AreWords offset.new words.new.items }
    ensures ranks { ranks_in offset.new words.new.items ≡ ranks_in offset.old words.old.items }
{
    let front = zeros_in_front(words.as_slice());
    let end = without_zeros_at_end(words.as_slice());
    if end == 0 {
        words.clear();
        *offset = 0;
        return;
    }
    words.as_mut_slice().rotate_left(front);
    words.truncate(end - front);
    *offset += front as u32;
}

// Whether each rank of the first words is one of the second's.
pub(crate) fn all_are_in(offset: u32, words: &[u64], other_offset: u32, others: &[u64]) -> bool
    requires { AreWords offset words.now }
    ensures { result ≡ is_subset (ranks_in offset words.now) (ranks_in other_offset others.now) }
{
    if words.is_empty() {
        return true;
    }
    // The first and the last word have ranks.
    if offset < other_offset {
        return false;
    }
    if offset as usize + words.len() > other_offset as usize + others.len() {
        return false;
    }
    let at = (offset - other_offset) as usize;
    for (i, word) in words.iter().enumerate() {
        if *word & !others[at + i] != 0 {
            return false;
        }
    }
    true
}

// Whether there are no ranks: trimmed words that stand for none are none.
pub(crate) fn has_none(offset: u32, words: &[u64]) -> bool
    requires { AreWords offset words.now }
    ensures { result ≡ is_empty (ranks_in offset words.now) }
{
    words.is_empty()
}

// How many bits are 1.
pub(crate) fn ones(words: &[u64]) -> u32
    requires { length words.now ≤ WORD_LIMIT }
    ensures ones { (o : ℕ) → result ≡ size (ranks_in o words.now) }
    ensures within { result ≤ 64 * length words.now }
{
    let mut total = 0;
    for word in words {
        total += word.count_ones();
    }
    total
}

/// How many runs of neighbours the words have. It serves to choose a form, and no clause speaks of it.
pub(crate) fn run_starts(words: &[u64]) -> u32 {
    let mut total: u32 = 0;
    let mut before = 0;
    for word in words {
        // Where there are few ranks, most words have none.
        if *word != 0 {
            total = total.saturating_add((word & !(word << 1 | before)).count_ones());
        }
        before = word >> 63;
    }
    total
}

// Whether the two have the same ranks: trimmed words that do are equal.
pub(crate) fn are_same(offset: u32, words: &[u64], other_offset: u32, others: &[u64]) -> bool
    requires trimmed { AreWords offset words.now }
    requires trimmed_others { AreWords other_offset others.now }
    ensures { (result ≡ true) ↔ (ranks_in offset words.now ≡ ranks_in other_offset others.now) }
{
    offset == other_offset && are_equal(words, others)
}

// Whether the words are equal, one by one.
fn are_equal(xs: &[u64], ys: &[u64]) -> bool
    ensures { (result ≡ true) ↔ (xs.now ≡ ys.now) }
{
    xs.len() == ys.len() && have_same_words(xs, ys)
}

// The same for so many words. It gathers the bits that differ in all of them, since a loop that goes to its end
// compares several at once.
fn have_same_words(xs: &[u64], ys: &[u64]) -> bool
    requires { length xs.now ≡ length ys.now }
    ensures { (result ≡ true) ↔ (xs.now ≡ ys.now) }
{
    let ys = &ys[..xs.len()];
    let mut differing = 0;
    for (i, word) in xs.iter().enumerate() {
        differing |= *word ^ ys[i];
    }
    differing == 0
}

// The least rank.
pub(crate) fn least(offset: u32, words: &[u64]) -> Option<u32>
    requires { AreWords offset words.now }
    ensures none { IfNone result (ranks_in offset words.now ≡ none) }
    ensures least { IfSome result (λ r. slice_get (in_order (ranks_in offset words.now)) 0 ≡ Some r) }
    ensures below_limit { IfSome result (λ r. r < RANK_LIMIT) }
{
    if words.is_empty() {
        return None;
    }
    Some(offset * 64 + words[0].trailing_zeros())
}

// The index of the word with the least rank, or 0 for no ranks.
pub(crate) fn offset_in(offset: u32, words: &[u64]) -> u32
    requires { AreWords offset words.now }
    ensures { result ≡ offset_of (ranks_in offset words.now) }
{
    if words.is_empty() { 0 } else { offset }
}

// The words, which begin with that of the least rank.
pub(crate) fn held(offset: u32, words: &[u64]) -> &[u64]
    requires { AreWords offset words.now }
    ensures trimmed { AreWords (offset_of (ranks_in offset words.now)) result.now }
    ensures ranks { ranks_in (offset_of (ranks_in offset words.now)) result.now ≡ ranks_in offset words.now }
    ensures list { result.now ≡ words_of (ranks_in offset words.now) }
{
    words
}

// A copy of the words.
pub(crate) fn words_in(alloc: Global, offset: u32, words: &[u64]) -> Result<Vec<u64>, AllocError>
    requires { AreWords offset words.now }
    ensures trimmed { IfOk result (λ all. AreWords (offset_of (ranks_in offset words.now)) all.items) }
    ensures ranks { IfOk result (λ all. ranks_in (offset_of (ranks_in offset words.now)) all.items
        ≡ ranks_in offset words.now) }
    ensures list { IfOk result (λ all. all.items ≡ words_of (ranks_in offset words.now)) }
{
    let all = Vec::from_slice(alloc, held(offset, words))?;
    Ok(all)
}

// The first number from the given one on, within the words, that is a rank, or with `gap` is not. The number is in one
// of the words or behind them.
#[inline(always)]
fn next_bit(offset: u32, words: &[u64], from: u32, gap: bool) -> Option<u32>
    requires within { offset + length words.now ≤ WORD_LIMIT }
    requires begins { 64 * offset ≤ from }
    ensures run { IfSome result (IsNext offset words.now gap from) }
    ensures none { IfNone result
        ((q : ℕ) → from ≤ q → q < 64 * (offset + length words.now) → bit_in offset words.now q ≡ gap) }
{
    let mut mask = u64::MAX << (from % 64);
    for i in (from / 64 - offset) as usize..words.len() {
        let word = words[i];
        let seen = if gap { !word } else { word };
        let left = seen & mask;
        if left != 0 {
            return Some(64 * (offset + i as u32) + left.trailing_zeros());
        }
        mask = u64::MAX;
    }
    None
}

// The longest run of neighbours that begins with the least rank at or above `from`.
#[inline(always)]
pub(crate) fn next_run(offset: u32, words: &[u64], from: u32) -> Option<Run>
    requires { offset + length words.now ≤ WORD_LIMIT }
    ensures none { IfNone result ((q : ℕ) → from ≤ q → has (ranks_in offset words.now) q ≡ false) }
    ensures run { IfSome result (λ run. IsRun (ranks_in offset words.now) from run.first run.last) }
    ensures in_range { IfSome result (λ run. run.last < 64 * (offset + length words.now)) }
{
    let first = next_bit(offset, words, from.max(64 * offset), false)?;
    let end = match next_bit(offset, words, first, true) {
        Some(gap) => gap,
        None => 64 * (offset + words.len() as u32),
    };
    Some(Run {
        first,
        last: end - 1,
    })
}

// The longest run among the ranks up to `to` that begins with the least rank at or above `from`.
pub(crate) fn run_within(offset: u32, words: &[u64], from: u32, to: u32) -> Option<Run>
    requires { offset + length words.now ≤ WORD_LIMIT }
    ensures none { IfNone result ((q : ℕ) → from ≤ q → q ≤ to → has (ranks_in offset words.now) q ≡ false) }
    ensures run { IfSome result (λ run. IsRun (up_to to (ranks_in offset words.now)) from run.first run.last) }
    ensures in_range { IfSome result (λ run. run.last < 64 * (offset + length words.now)) }
{
    let len = (to / 64 + 1).saturating_sub(offset) as usize;
    let len = len.min(words.len());
    let Some(run) = next_run(offset, &words[..len], from) else {
        return None;
    };
    if to < run.first {
        return None;
    }
    Some(Run {
        first: run.first,
        last: run.last.min(to),
    })
}
