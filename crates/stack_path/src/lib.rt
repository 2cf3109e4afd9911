//! From the stack of a thread to its call path: the rules that decide which ranks share a path.
//!
//! [`stack_of`] gives a stack's calls their frames; [`first_path`] and [`other_path`] choose where the path begins, leave
//! out what a library that waits does of its own, show recursion once, end the path at the user's words, and keep both
//! ends of what is too long. Only out of memory is refused: each stack has a path that `call_path` reads. The laws at the
//! end of the list below say how the paths by two choices go together. `specs/Paths.antt` is the whole in a few lines,
//! and `specs/Rows.antt` has whole stacks with their paths.
#![tactic(auto)]

mod beginnings;
mod choice;
mod cuts;
mod ends;
mod laws;
mod paths;
mod recursion;
mod remarks;
mod shown;
mod stacks;

pub use choice::{Choice, End, Recursion};
pub use laws::{
    depth_is_coarser, lines_change_no_frames, more_words_are_coarser, paths_are_shown,
    recursion_once,
};
pub use paths::{StackPath, first_path, other_path};
pub use remarks::{cut_to, with_remark};
pub use stacks::{is_replaced, stack_of};
