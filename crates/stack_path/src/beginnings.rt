//! Where the path of a stack begins. A stack has its outermost frame first.

ghost use Rattle.std.specs.Prelude.{◌≡◌, ◌≤◌, not, length, reverse};
ghost use Rattle.std.specs.List.{prefix_len};
ghost use Rattle.stack_path.specs.Beginnings.{start_len, without_start, begun_first, begun_other};

use frame_name::Frame;

// How many frames a stack has outside of its outermost `main`.
fn main_index(stack: &[Frame]) -> usize
    ensures value { result ≡ prefix_len (λ f. not f.is_main) stack.now }
    ensures within { result ≤ length stack.now }
{
    stack.iter().take_while(|f| !f.is_main()).count()
}

// How many frames a stack has outside of the program's own code.
fn own_index(stack: &[Frame]) -> usize
    ensures value { result ≡ prefix_len (λ f. not f.is_own) stack.now }
    ensures within { result ≤ length stack.now }
{
    stack.iter().take_while(|f| !f.is_own()).count()
}

// How many frames there are inside of the last one below which nothing has begun.
fn begun_len(stack: &[Frame]) -> usize
    ensures value { result ≡ prefix_len (λ f. not f.is_start) (reverse stack.now) }
    ensures within { result ≤ length stack.now }
{
    stack.iter().rev().take_while(|f| !f.is_start()).count()
}

// How many frames there are up to the last one of the first four below which nothing has begun.
fn start_len(stack: &[Frame]) -> usize
    ensures { result ≡ start_len stack.now }
{
    let (first, _) = stack.split_at(stack.len().min(4));
    first.len() - begun_len(first)
}

// A stack without these, but with its innermost frame.
fn without_start(stack: &[Frame]) -> &[Frame]
    ensures { result.now ≡ without_start stack.now }
{
    let (_, begun) = stack.split_at(start_len(stack).min(stack.len().saturating_sub(1)));
    begun
}

/// What is shown of the first thread's stack: from the outermost `main` on, or else what is not below the beginning. It
/// is empty only where the stack is.
pub fn begun_first(stack: &[Frame]) -> &[Frame]
    ensures { result.now ≡ begun_first stack.now }
{
    let (_, begun) = stack.split_at(main_index(stack));
    if begun.is_empty() {
        without_start(stack)
    } else {
        begun
    }
}

/// What is shown of another thread's stack: from the program's own code on. It is empty where there is none.
pub fn begun_other(stack: &[Frame]) -> &[Frame]
    ensures { result.now ≡ begun_other stack.now }
{
    let (_, begun) = stack.split_at(own_index(stack));
    begun
}
