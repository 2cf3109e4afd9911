//! The path of a stack.

ghost use Rattle.std.specs.Prelude.{◌≡◌, IfOk, ◌<◌, length, codes, option_map};
ghost use Rattle.stack_path.specs.Paths.{visible, ended, or_no_stack, no_stack, path_of_begun, first_path, other_path, path_if_begun};
ghost use Rattle.stack_path.specs.ChoiceViews.{end_view, choice_view};
ghost use Rattle.stack_path.specs.PathViews.{stack_path_view};
ghost use Rattle.stack_path.specs.StackViews.{stack_view};

use crate::beginnings::{begun_first, begun_other};
use crate::choice::{Choice, End};
use crate::cuts::cut;
use crate::ends::both_ends;
use crate::recursion::once;
use crate::shown::{all_frames, is_static, shown};
use call_path::{CallPath, FRAME_LIMIT, PathBuilder};
use frame_name::Frame;
use std::alloc::{AllocError, Global};

// How many calls recursion leaves out without a word.
const DEEP: usize = 1_000;

/// The path of a stack, and what it leaves out.
#[derive(Drop)]
pub struct StackPath {
    pub path: CallPath,
    /// Whether it has over 128 frames, of which both ends are shown.
    pub is_long: bool,
    /// Whether over 1,000 calls are left out since they come again.
    pub is_deep: bool,
}

// The calls of a stack that has begun which may be shown.
fn visible<'f>(alloc: Global, end: &End, stack: &'f [Frame]) -> Result<Vec<&'f Frame>, AllocError>
    ensures { IfOk result (λ frames. stack_view frames.items ≡ visible (end_view end.now) stack.now) }
{
    match end {
        End::Calls(_) => shown(alloc, stack, is_static(stack)),
        End::Whole => all_frames(alloc, stack),
    }
}

// Keeps the frames up to the one where the path ends.
fn end_at(frames: &mut Vec<&Frame>, end: &End)
    ensures { stack_view frames.new.items ≡ ended (end_view end.now) (stack_view frames.old.items) }
{
    match end {
        End::Calls(words) => cut(frames, words),
        End::Whole => {}
    }
}

// A path, which says so where it has no frame.
fn or_no_stack(path: PathBuilder) -> Result<CallPath, AllocError>
    ensures { IfOk result (λ p. p ≡ or_no_stack path) }
{
    let mut path = path;
    if path.len() == 0 {
        path.push("(no stack)")?;
    }
    Ok(path.into_path())
}

// The path of a stack that has begun.
fn path_of_begun(alloc: Global, choice: &Choice, stack: &[Frame]) -> Result<StackPath, AllocError>
    ensures { IfOk result (λ p. stack_path_view p ≡ path_of_begun (choice_view choice.now) stack.now) }
{
    let calls = visible(alloc, &choice.end, stack)?;
    let mut frames = once(alloc, calls.as_slice(), choice.recursion)?;
    let is_deep = frames.len() + DEEP < calls.len();
    end_at(&mut frames, &choice.end);
    let path = both_ends(alloc, frames.as_slice())?;
    Ok(StackPath {
        path: or_no_stack(path)?,
        is_long: FRAME_LIMIT < frames.len(),
        is_deep,
    })
}

/// The path of the first thread's stack, outermost frame first: from `main` on, with what the user chooses left out. It
/// is `(no stack)` where there is no frame. The one error is running out of memory.
#[tactic(auto, unfolding(crate::specs::Paths::first_path))]
pub fn first_path(alloc: Global, choice: &Choice, stack: &[Frame]) -> Result<StackPath, AllocError>
    ensures { IfOk result (λ p. stack_path_view p ≡ first_path (choice_view choice.now) stack.now) }
{
    path_of_begun(alloc, choice, begun_first(stack))
}

/// The path of another thread's stack, from the program's own code on; none where it runs none. The one error is running
/// out of memory.
#[tactic(auto, unfolding(crate::specs::Paths::other_path))]
pub fn other_path(
    alloc: Global,
    choice: &Choice,
    stack: &[Frame],
) -> Result<Option<StackPath>, AllocError>
    ensures { IfOk result (λ p. option_map stack_path_view p ≡ other_path (choice_view choice.now) stack.now) }
{
    let begun = begun_other(stack);
    if begun.is_empty() {
        return Ok(None);
    }
    Ok(Some(path_of_begun(alloc, choice, begun)?))
}
