//! What is left out below the calls in which a rank waits for others.

ghost use Rattle.std.specs.Prelude.{◌≡◌, ◌&&◌, IfOk, not, false};
ghost use Rattle.std.specs.List.{list_any};
ghost use Rattle.stack_path.specs.Shown.{shown, is_static};
ghost use Rattle.stack_path.specs.StackViews.{stack_view};

use frame_name::Frame;
use std::alloc::{AllocError, Global};

// Whether a stack shows a library of MPI's.
fn shows_mpi(stack: &[Frame]) -> bool
    ensures { result ≡ list_any (λ f. f.is_mpi) stack.now }
{
    stack.iter().any(|f| f.is_mpi())
}

/// Whether a stack shows no library of MPI's. Then its calls are told by their names.
pub fn is_static(stack: &[Frame]) -> bool
    ensures { result ≡ is_static stack.now }
{
    !shows_mpi(stack)
}

/// The frames that are shown, where calls are told by their names or not. Below a call of a library that waits those up
/// to the next one of the program's own code are left out, and below a call that is told by its name all.
pub fn shown(alloc: Global, stack: &[Frame], is_named: bool) -> Result<Vec<&Frame>, AllocError>
    ensures { IfOk result (λ frames. stack_view frames.items ≡ shown is_named stack.now) }
{
    let mut frames = Vec::new(alloc);
    let mut is_below = false;
    for frame in stack {
        if is_below && !frame.is_own() {
            continue;
        }
        frames.push(frame)?;
        if is_named && frame.is_standard() {
            return Ok(frames);
        }
        is_below = frame.waits();
    }
    Ok(frames)
}

/// All frames.
pub fn all_frames(alloc: Global, stack: &[Frame]) -> Result<Vec<&Frame>, AllocError>
    ensures { IfOk result (λ frames. stack_view frames.items ≡ stack.now) }
{
    stack.iter().collect(alloc)
}
