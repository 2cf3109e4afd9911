//! Frames that two paths share.

ghost use Rattle.std.specs.Prelude.{◌≡◌, ◌+◌, ◌<◌, ◌≤◌, drop, take, length, slice_get};
ghost use Rattle.arena_tree.specs.ChainForest.{split_frames, split_parts};

use call_path::CallPath;

/// How many frames of one path, from frame i on, are those of another from frame j on.
fn common(own: &CallPath, i: usize, other: &CallPath, j: usize) -> usize
    requires own { i ≤ length own.now }
    requires other { j ≤ length other.now }
    ensures within_own { i + result ≤ length own.now }
    ensures within_other { j + result ≤ length other.now }
    ensures split { split_frames (drop i own.now) (drop j other.now) ≡ split_parts
        (take result (drop i own.now)) (drop (i + result) own.now) (drop (j + result) other.now) }
{
    let most = (own.len() - i).min(other.len() - j);
    let mut n = 0;
    while n < most {
        if other.frame(j + n) != own.frame(i + n) {
            return n;
        }
        n += 1;
    }
    n
}

/// How many frames behind frame `i` of one path are those behind frame `j` of another, where both frames are the same.
pub(crate) fn common_behind(own: &CallPath, i: usize, other: &CallPath, j: usize) -> usize
    requires own { i < length own.now }
    requires other { j < length other.now }
    requires same { slice_get own.now i ≡ slice_get other.now j }
    ensures within_own { i + 1 + result ≤ length own.now }
    ensures within_other { j + 1 + result ≤ length other.now }
    ensures split { split_frames (drop (i + 1) own.now) (drop (j + 1) other.now) ≡ split_parts
        (take result (drop (i + 1) own.now)) (drop (i + 1 + result) own.now) (drop (j + 1 + result) other.now) }
{
    // for the proof: a path has at most `FRAME_LIMIT` frames
    let _lens = (own.len(), other.len());
    // A chain that begins with its path is compared by blocks of bytes, and one of the two nearly always does.
    if i == 0 {
        return own.common(other, j) - 1;
    }
    if j == 0 {
        return other.common(own, i) - 1;
    }
    common(own, i + 1, other, j + 1)
}
