//! The frames of a stack's calls.

ghost use Rattle.std.specs.Prelude.{◌≡◌, IfOk, map, reverse, not};
ghost use Rattle.std.specs.List.{list_any, filter};
ghost use Rattle.frame_name.specs.CallViews.{call_view};
ghost use Rattle.frame_name.specs.RuleViews.{rules_view};
ghost use Rattle.stack_path.specs.Stacks.{frames_of, stack_of, is_replaced};
ghost use Rattle.stack_path.specs.Beginnings.{without_plumbing};

use frame_name::{Call, Frame, Rules};
use std::alloc::{AllocError, Global};

// The frames of calls, of which the innermost is the first; the frames have their outermost first.
fn frames_of(alloc: Global, rules: &Rules, calls: &[Call]) -> Result<Vec<Frame>, AllocError>
    ensures { IfOk result (λ frames. frames.items ≡ frames_of (rules_view rules.now) (reverse (map call_view calls.now))) }
{
    let mut frames = Vec::with_capacity(alloc, calls.len())?;
    let mut rest = calls;
    while let Some((call, inner)) = rest.split_last() {
        frames.push(Frame::of(alloc, rules, call, inner.is_empty())?)?;
        rest = inner;
    }
    Ok(frames)
}

// Whether a frame is of another source file than the C++ library's own.
fn has_other_files(stack: &[Frame]) -> bool
    ensures { result ≡ list_any (λ f. not f.is_plumbing) stack.now }
{
    stack.iter().any(|f| !f.is_plumbing())
}

// Keeps the frames of other source files than the C++ library's own.
fn keep_other_files(stack: &mut Vec<Frame>)
    ensures { stack.new.items ≡ filter (λ f. not f.is_plumbing) stack.old.items }
{
    stack.retain(|f| !f.is_plumbing());
}

// Takes out the frames of the C++ library's own source files, where there are others.
fn drop_plumbing(stack: &mut Vec<Frame>)
    ensures { stack.new.items ≡ without_plumbing stack.old.items }
{
    if has_other_files(stack.as_slice()) {
        keep_other_files(stack);
    }
}

/// The frames of a stack's calls, of which the innermost is the first; the frames have their outermost first. Where lines
/// are shown, those of the C++ library's own source files are left out. The one error is running out of memory.
#[tactic(auto, unfolding(crate::specs::Stacks::stack_of))]
pub fn stack_of(alloc: Global, rules: &Rules, calls: &[Call]) -> Result<Vec<Frame>, AllocError>
    ensures { IfOk result (λ stack. stack.items ≡ stack_of (rules_view rules.now) (reverse (map call_view calls.now))) }
{
    let mut stack = frames_of(alloc, rules, calls)?;
    if rules.keeps_lines {
        drop_plumbing(&mut stack);
        return Ok(stack);
    }
    Ok(stack)
}

/// Whether code of the program's own that is on a stack was removed or replaced while it ran.
pub fn is_replaced(stack: &[Frame]) -> bool
    ensures { result ≡ is_replaced stack.now }
{
    stack.iter().any(|f| f.is_own() && f.is_deleted())
}
