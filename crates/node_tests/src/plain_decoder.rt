//! A second reader of frames, to judge `decode`: it reads the fields from the front, one after another, as the tables
//! of docs/FORMATS.md have them, and knows nothing else of the crate.

use packet_frame::{FrameError, FrameReason};
use std::alloc::Global;
use std::cmp::Ordering;

// A row that was read: its depth and its name.
#[derive(Drop)]
struct Named {
    depth: u64,
    name: Vec<u8>,
}

fn refused(at: usize, reason: FrameReason) -> FrameError {
    FrameError::Refused {
        at: at as u64,
        reason,
    }
}

// That a rule holds of the field at a place.
fn rule(holds: bool, at: usize, reason: FrameReason) -> Result<(), FrameError> {
    if holds {
        Ok(())
    } else {
        Err(refused(at, reason))
    }
}

// A number of so many bytes.
fn number(bytes: &[u8], at: usize, width: usize) -> Result<u64, FrameError> {
    let mut value = 0u64;
    for i in 0..width {
        let Some(byte) = bytes.get(at.wrapping_add(i)) else {
            return Err(refused(at, FrameReason::Short));
        };
        value = value.wrapping_mul(256).wrapping_add(u64::from(*byte));
    }
    Ok(value)
}

// So many bytes.
fn name(alloc: Global, bytes: &[u8], at: usize, length: u64) -> Result<Vec<u8>, FrameError> {
    let mut name = Vec::new(alloc);
    for i in 0..length {
        let Some(byte) = bytes.get(at.wrapping_add(i as usize)) else {
            return Err(refused(at, FrameReason::Short));
        };
        name.push(*byte)?;
    }
    Ok(name)
}

// Puts the words of a set, from index 0 on, and gives the place behind it. Its bits must be among those that may stand.
// Where it may not be empty, there is a reason.
fn set(
    bytes: &[u8],
    at: usize,
    limit: u64,
    may: &[u64],
    empty: Option<FrameReason>,
    words: &mut Vec<u64>,
) -> Result<usize, FrameError> {
    let offset = number(bytes, at, 2)?;
    rule(offset < limit, at, FrameReason::OverLimit)?;
    let at = at.wrapping_add(2);
    let count = number(bytes, at, 2)?;
    rule(
        offset.wrapping_add(count) <= limit,
        at,
        FrameReason::OverLimit,
    )?;
    rule(offset == 0 || count != 0, at, FrameReason::NotCanonical)?;
    if let Some(reason) = empty {
        rule(count != 0, at, reason)?;
    }
    for _ in 0..offset {
        words.push(0)?;
    }
    let mut at = at.wrapping_add(2);
    for i in 0..count {
        let word = number(bytes, at, 8)?;
        let is_inner = i != 0 && i.wrapping_add(1) != count;
        rule(is_inner || word != 0, at, FrameReason::NotCanonical)?;
        let allowed = match may.get(words.len()) {
            Some(allowed) => *allowed,
            None => 0,
        };
        rule(word & allowed == word, at, FrameReason::NotCanonical)?;
        words.push(word)?;
        at = at.wrapping_add(8);
    }
    Ok(at)
}

// As many low bits as a number says, in words.
fn low_bits(alloc: Global, count: u64) -> Result<Vec<u64>, FrameError> {
    let mut words = Vec::new(alloc);
    for _ in 0..count / 64 {
        words.push(u64::MAX)?;
    }
    words.push(1u64.wrapping_shl((count % 64) as u32).wrapping_sub(1))?;
    Ok(words)
}

// Adds up the ranks of the runs of a coverage, and gives the place behind them.
fn runs(bytes: &[u8], at: usize, ranks: &mut u64) -> Result<usize, FrameError> {
    let count = number(bytes, at, 4)?;
    rule(count != 0, at, FrameReason::BadLength)?;
    rule(count <= 524_288, at, FrameReason::OverLimit)?;
    let mut at = at.wrapping_add(4);
    let mut least = 0;
    for _ in 0..count {
        let first = number(bytes, at, 4)?;
        rule(first < 1_048_576, at, FrameReason::OverLimit)?;
        rule(first >= least, at, FrameReason::NotCanonical)?;
        at = at.wrapping_add(4);
        let last = number(bytes, at, 4)?;
        rule(last < 1_048_576, at, FrameReason::OverLimit)?;
        rule(last >= first, at, FrameReason::NotCanonical)?;
        at = at.wrapping_add(4);
        *ranks = ranks.wrapping_add(last).wrapping_sub(first).wrapping_add(1);
        least = last.wrapping_add(2);
    }
    Ok(at)
}

// Whether a name is greater than its sibling before it, among the rows before.
fn is_after_sibling(rows: &[Named], depth: u64, name: &[u8]) -> bool {
    let mut is_after = true;
    for row in rows {
        if row.depth < depth {
            is_after = true;
        }
        if row.depth == depth {
            is_after = row.name.as_slice().cmp(name) == Ordering::Less;
        }
    }
    is_after
}

fn is_plain(name: &[u8]) -> bool {
    for byte in name {
        if *byte < 0x20 || *byte == 0x7F || *byte == b';' {
            return false;
        }
    }
    str::from_utf8(name).is_ok()
}

// The depth of a row, which may be at most one below the row before, and is that where that row has no ends.
fn depth_of(bytes: &[u8], at: usize, before: u64, ended: bool) -> Result<u64, FrameError> {
    let depth = number(bytes, at, 1)?;
    rule(depth <= 128, at, FrameReason::OverLimit)?;
    let next = before.wrapping_add(1);
    let is_good = 1 <= depth && depth <= next && (ended || depth == next);
    rule(is_good, at, FrameReason::NotCanonical)?;
    Ok(depth)
}

// The name of a row.
fn name_of(
    alloc: Global,
    bytes: &[u8],
    at: usize,
    before: &[Named],
    depth: u64,
) -> Result<Vec<u8>, FrameError> {
    let length = number(bytes, at, 2)?;
    rule(length != 0, at, FrameReason::BadLength)?;
    rule(length <= 1_023, at, FrameReason::OverLimit)?;
    let at = at.wrapping_add(2);
    let name = name(alloc, bytes, at, length)?;
    let is_good = is_plain(&name) && is_after_sibling(before, depth, &name);
    rule(is_good, at, FrameReason::NotCanonical)?;
    Ok(name)
}

// The place behind the rows.
fn rows(
    alloc: Global,
    bytes: &[u8],
    at: usize,
    limit: u64,
    may: &[u64],
) -> Result<usize, FrameError> {
    let count = number(bytes, at, 2)?;
    rule(count <= 2_048, at, FrameReason::OverLimit)?;
    let mut at = at.wrapping_add(2);
    let mut before = Vec::new(alloc);
    let mut depth_before = 0u64;
    let mut ended = true;
    for i in 0..count {
        let depth = depth_of(bytes, at, depth_before, ended)?;
        at = at.wrapping_add(1);
        let name = name_of(alloc, bytes, at, &before, depth)?;
        at = at.wrapping_add(2).wrapping_add(name.len());

        let is_needed = i.wrapping_add(1) == count || depth == 128;
        let empty = if is_needed {
            Some(FrameReason::NotCanonical)
        } else {
            None
        };
        let mut ends = Vec::new(alloc);
        at = set(bytes, at, limit, may, empty, &mut ends)?;
        ended = !ends.is_empty();
        depth_before = depth;
        before.push(Named { depth, name })?;
    }
    Ok(at)
}

// The place behind the tree of an Up of version 1.
fn first_tree(alloc: Global, bytes: &[u8], at: usize) -> Result<usize, FrameError> {
    let all = low_bits(alloc, 16_384)?;
    let mut cover = Vec::new(alloc);
    let empty = Some(FrameReason::BadLength);
    let at = set(bytes, at, 256, &all, empty, &mut cover)?;
    rows(alloc, bytes, at, 256, &cover)
}

// The place behind the tree of an Up of version 2.
fn second_tree(alloc: Global, bytes: &[u8], at: usize) -> Result<usize, FrameError> {
    let mut ranks = 0;
    let at = runs(bytes, at, &mut ranks)?;
    let places = low_bits(alloc, ranks)?;
    rows(alloc, bytes, at, 16_384, &places)
}

/// The length of the frame at the front.
pub fn length_of(alloc: Global, bytes: &[u8]) -> Result<usize, FrameError> {
    let version = number(bytes, 0, 1)?;
    rule(version == 1 || version == 2, 0, FrameReason::BadKind)?;
    let kind = number(bytes, 1, 1)?;
    rule(1 <= kind && kind <= 4, 1, FrameReason::BadKind)?;
    if kind > 2 {
        return Ok(2);
    }
    let stream = number(bytes, 2, 1)?;
    rule(stream < 8, 2, FrameReason::OverLimit)?;
    let wave = number(bytes, 3, 1)?;
    rule(wave < 16, 3, FrameReason::OverLimit)?;
    if kind == 2 {
        return Ok(4);
    }
    if version == 1 {
        first_tree(alloc, bytes, 4)
    } else {
        second_tree(alloc, bytes, 4)
    }
}
