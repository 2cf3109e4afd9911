//! Remarks behind a path, and the user's limit.

ghost use Rattle.std.specs.Prelude.{◌≡◌, ◌<◌, ◌≤◌, ◌+◌, ◌-◌, ◌++◌, [], ◌∷◌, length, take, drop, IfOk, OnOk, IsTrue};
ghost use Rattle.call_path.specs.Good.{is_good_frame};
ghost use Rattle.stack_path.specs.Ends.{with_remark, ends_with_remark, cut_to};

use crate::ends::LEFT_OUT;
use call_path::{CallPath, FRAME_LIMIT, PathBuilder};
use frame_name::is_remark;
use std::alloc::{AllocError, Global};

// Appends the frames of a path from one number up to another.
fn push_range(
    out: &mut PathBuilder,
    path: &CallPath,
    from: usize,
    to: usize,
) -> Result<(), AllocError>
    requires order { from ≤ to }
    requires within { to ≤ length path.now }
    requires room { length out.old + (to - from) ≤ FRAME_LIMIT }
    ensures { OnOk result (out.new ≡ out.old ++ take (to - from) (drop from path.now)) }
{
    for i in from..to {
        out.push(path.frame(i))?;
    }
    Ok(())
}

// A path of 128 frames with a remark behind it: both ends.
fn ends_with(alloc: Global, path: &CallPath, remark: &str) -> Result<CallPath, AllocError>
    requires full { length path.now ≡ FRAME_LIMIT }
    requires good { IsTrue (is_good_frame remark.now) }
    ensures { IfOk result (λ p. p ≡ with_remark path.now remark.now) }
{
    let mut ends = PathBuilder::new(alloc);
    push_range(&mut ends, path, 0, 63)?;
    ends.push(LEFT_OUT)?;
    push_range(&mut ends, path, 65, 128)?;
    ends.push(remark)?;
    Ok(ends.into_path())
}

/// A path with a remark behind it; where it has 128 frames already, both ends of it. A frame's text that is no remark
/// never looks like one. The one error is running out of memory, which takes the path along.
pub fn with_remark(alloc: Global, path: CallPath, remark: &str) -> Result<CallPath, AllocError>
    requires { IsTrue (is_good_frame remark.now) }
    ensures { IfOk result (λ p. p ≡ with_remark path remark.now) }
{
    if path.len() == FRAME_LIMIT {
        return ends_with(alloc, &path, remark);
    }
    let mut frames = path.into_builder();
    frames.push(remark)?;
    Ok(frames.into_path())
}

// Whether a path ends with a remark.
fn ends_with_remark(path: &CallPath) -> bool
    ensures { result ≡ ends_with_remark path.now }
{
    is_remark(path.frame(path.len() - 1).as_bytes())
}

// A path of at most so many frames, the last of which is the path's own last one.
fn keep_last(alloc: Global, path: CallPath, depth: usize) -> Result<CallPath, AllocError>
    requires not_empty { 0 < depth }
    requires within { depth < length path }
    ensures { IfOk result (λ p. p ≡ take (depth - 1) path ++ drop (length path - 1) path) }
{
    let mut kept = PathBuilder::new(alloc);
    push_range(&mut kept, &path, 0, depth - 1)?;
    push_range(&mut kept, &path, path.len() - 1, path.len())?;
    Ok(kept.into_path())
}

/// At most `depth` frames of a path: the outer ones. A remark at its end stays, in the place of the last of them. The one
/// error is running out of memory, which takes the path along.
#[tactic(auto, unfolding(crate::specs::Ends::cut_to))]
pub fn cut_to(alloc: Global, path: CallPath, depth: usize) -> Result<CallPath, AllocError>
    requires { 0 < depth }
    ensures { IfOk result (λ p. p ≡ cut_to depth path) }
{
    let mut path = path;
    if path.len() <= depth {
        return Ok(path);
    }
    if ends_with_remark(&path) {
        return keep_last(alloc, path, depth);
    }
    path.cut(depth);
    Ok(path)
}
