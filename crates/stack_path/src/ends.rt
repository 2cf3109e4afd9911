//! Both ends of a path that is too long, remarks, and the user's limit.

ghost use Rattle.std.specs.Prelude.{◌≡◌, ◌<◌, ◌≤◌, ◌+◌, ◌-◌, ◌++◌, [], ◌∷◌, length, take, drop, map, codes, IfOk, OnOk, IsTrue};
ghost use Rattle.call_path.specs.Good.{is_good_frame};
ghost use Rattle.frame_name.specs.Frames.{frame_text};
ghost use Rattle.frame_name.specs.Plain.{is_remark};
ghost use Rattle.stack_path.specs.Ends.{both_ends, left_out, with_remark, ends_with_remark, cut_to};
ghost use Rattle.stack_path.specs.StackViews.{stack_view};

use call_path::{CallPath, FRAME_LIMIT, PathBuilder};
use frame_name::Frame;
use std::alloc::{AllocError, Global};

// The frame that stands for those that are left out.
pub const LEFT_OUT: &str = "(frames left out)";

// Appends frames to a path.
fn push_frames(path: &mut PathBuilder, frames: &[&Frame]) -> Result<(), AllocError>
    requires { length path.old + length frames.now ≤ FRAME_LIMIT }
    ensures { OnOk result (path.new ≡ path.old ++ map frame_text (stack_view frames.now)) }
{
    for frame in frames {
        frame.push_to(path)?;
    }
    Ok(())
}

/// The path of some frames, outermost first: of over 128 both ends.
pub fn both_ends(alloc: Global, frames: &[&Frame]) -> Result<PathBuilder, AllocError>
    ensures { IfOk result (λ path. path ≡ both_ends (map frame_text (stack_view frames.now))) }
{
    let mut path = PathBuilder::new(alloc);
    if frames.len() <= FRAME_LIMIT {
        push_frames(&mut path, frames)?;
        return Ok(path);
    }
    let (outer, _) = frames.split_at(63);
    let (_, inner) = frames.split_at(frames.len() - 64);
    push_frames(&mut path, outer)?;
    path.push(LEFT_OUT)?;
    push_frames(&mut path, inner)?;
    Ok(path)
}
