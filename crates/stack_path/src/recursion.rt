//! Recursion: of calls that come again, the last ones are shown.

ghost use Rattle.std.specs.Prelude.{◌≡◌, ◌≤◌, ◌<◌, ◌+◌, ◌-◌, ◌++◌, [], ◌∷◌, length, take, drop, IfOk, OnOk, not, zero};
ghost use Rattle.std.specs.List.{prefix_len};
ghost use Rattle.std.specs.Str.{bytes_eq};
ghost use Rattle.stack_path.specs.Recursion.{are_same, ends_twice, cycle_len, without_before, cycle_once, len_before, with_call, with_calls, once};
ghost use Rattle.stack_path.specs.ChoiceViews.{recursion_view};
ghost use Rattle.stack_path.specs.StackViews.{stack_view};

use crate::choice::Recursion;
use frame_name::Frame;
use std::alloc::{AllocError, Global};

// Whether two frames are calls of one function.
fn is_same(f: &Frame, g: &Frame) -> bool
    ensures { result ≡ bytes_eq f.now.name g.now.name }
{
    f.name() == g.name()
}

// Whether two stacks are calls of the same functions.
fn are_same(s: &[&Frame], t: &[&Frame]) -> bool
    ensures { result ≡ are_same (stack_view s.now) (stack_view t.now) }
{
    match (s.split_first(), t.split_first()) {
        (None, None) => true,
        (Some((f, s)), Some((g, t))) => is_same(f, g) && are_same(s, t),
        _ => false,
    }
}

// Whether a stack ends with the same n calls twice.
fn ends_twice(stack: &[&Frame], n: usize) -> bool
    requires { n ≤ 32 }
    ensures { result ≡ ends_twice n (stack_view stack.now) }
{
    if n + n > stack.len() {
        return false;
    }
    let (_, end) = stack.split_at(stack.len() - (n + n));
    let (before, _) = end.split_at(n);
    let (_, last) = stack.split_at(stack.len() - n);
    are_same(before, last)
}

// The length of the shortest cycle that a stack ends with twice, at most 32; or 0.
fn cycle_len(stack: &[&Frame]) -> usize
    ensures value { result ≡ cycle_len (stack_view stack.now) }
    ensures within { result + result ≤ length stack.now }
{
    for n in 1..33 {
        if ends_twice(stack, n) {
            return n;
        }
    }
    0
}

// Takes out the n frames before the last n.
fn remove_before(stack: &mut Vec<&Frame>, n: usize)
    requires { n + n ≤ length stack.old.items }
    ensures { stack_view stack.new.items ≡ without_before n (stack_view stack.old.items) }
{
    let start = stack.len() - (n + n);
    for _ in 0..n {
        stack.remove(start);
    }
}

// Takes out the first of two cycles that a stack ends with.
fn keep_cycle_once(stack: &mut Vec<&Frame>)
    ensures { stack_view stack.new.items ≡ cycle_once (stack_view stack.old.items) }
{
    let n = cycle_len(stack.as_slice());
    remove_before(stack, n);
}

// How many frames a stack has before the first call of a function.
fn len_before(stack: &[&Frame], frame: &Frame) -> usize
    ensures value { result ≡ prefix_len (λ f. not (bytes_eq f.now.name frame.now.name)) stack.now }
    ensures within { result ≤ length stack.now }
{
    stack.iter().take_while(|f| !is_same(f, frame)).count()
}

// What is shown with one call more.
fn add_call<'f>(
    stack: &mut Vec<&'f Frame>,
    recursion: Recursion,
    frame: &'f Frame,
) -> Result<(), AllocError>
    ensures { OnOk result
        (stack_view stack.new.items ≡ with_call (recursion_view recursion) (stack_view stack.old.items) frame.now) }
{
    match recursion {
        Recursion::Cycles => {
            stack.push(frame)?;
            keep_cycle_once(stack);
            Ok(())
        }
        Recursion::Loops => {
            let n = len_before(stack.as_slice(), frame);
            stack.truncate(n);
            stack.push(frame)?;
            Ok(())
        }
        Recursion::Each => {
            stack.push(frame)?;
            Ok(())
        }
    }
}

/// What is shown of a stack's calls, outermost first.
pub fn once<'f>(
    alloc: Global,
    calls: &[&'f Frame],
    recursion: Recursion,
) -> Result<Vec<&'f Frame>, AllocError>
    ensures { IfOk result (λ shown. stack_view shown.items ≡ once (recursion_view recursion) (stack_view calls.now)) }
{
    let mut shown = Vec::new(alloc);
    for frame in calls {
        add_call(&mut shown, recursion, frame)?;
    }
    Ok(shown)
}
