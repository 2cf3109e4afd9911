//! The order of paths, read off their texts.

ghost use Rattle.std.specs.Prelude.{◌≡◌, ◌≢◌, ◌+◌, ◌<◌, ◌≤◌, length, take, drop, slice_index, IsTrue};
ghost use Rattle.call_path.specs.TextOrder.{rank_at};

// Texts are compared by blocks of this many bytes, and then byte by byte.
const BLOCK: usize = 16;

// Whether two texts have the same block at an offset.
fn shares_block(text: &[u8], other: &[u8], offset: usize) -> bool
    requires left { offset ≤ length text.now }
    requires right { offset ≤ length other.now }
    ensures left { IsTrue result → offset + BLOCK ≤ length text.now }
    ensures right { IsTrue result → offset + BLOCK ≤ length other.now }
    ensures same { IsTrue result → take BLOCK (drop offset text.now) ≡ take BLOCK (drop offset other.now) }
{
    let Some(block) = text[offset..].first_chunk::<BLOCK>() else {
        return false;
    };
    let Some(other_block) = other[offset..].first_chunk::<BLOCK>() else {
        return false;
    };
    block == other_block
}

// The end of the first blocks that two texts share.
fn shared_blocks(text: &[u8], other: &[u8]) -> usize
    ensures left { result ≤ length text.now }
    ensures right { result ≤ length other.now }
    ensures same { take result text.now ≡ take result other.now }
{
    let mut offset = 0;
    while shares_block(text, other, offset) {
        offset += BLOCK;
    }
    offset
}

/// The first offset at which two texts differ, or the length of the shorter one.
pub fn first_difference(text: &[u8], other: &[u8]) -> usize
    ensures left { result ≤ length text.now }
    ensures right { result ≤ length other.now }
    ensures same { take result text.now ≡ take result other.now }
    ensures differ { result < length text.now → result < length other.now →
        slice_index text.now result ≢ slice_index other.now result }
{
    let shorter = text.len().min(other.len());
    let mut offset = shared_blocks(text, other);
    while offset < shorter && text[offset] == other[offset] {
        offset += 1;
    }
    offset
}

/// The rank of the byte at an offset: the end of a text comes first, and then the `;` between frames.
pub fn rank_at(text: &[u8], offset: usize) -> u8
    ensures { result ≡ rank_at text.now offset }
{
    if offset >= text.len() {
        return 0;
    }
    let byte = text[offset];
    if byte == b';' { 1 } else { byte }
}
