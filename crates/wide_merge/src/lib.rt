//! Direct merges by several threads, and the classes of a tree by several threads.
//!
//! [`wide_direct`] gives the direct release of each wave of a plan. The waves are cut in halves, and each half again,
//! as long as there is a thread for each part.
//!
//! [`wide_tree`] gives the same tree as `merge_filter::direct`. The daemons of the stream are cut in halves, and each
//! half again, as long as there is a thread for each part. The part of one thread is made by paths, as `direct` makes
//! the whole; then each of its daemons passes the gate once; and two parts are merged where both threads have ended.
//! Where no thread can be made, one thread does both halves, one after the other.
//!
//! [`wide_classes`] gives the same classes as `equiv_class::classes`. The tree is read once. Then the covered ranks
//! are cut in halves in the same way, and [`unite`] makes one list of the classes of both. [`lists_of_classes`] says
//! when a list of blocks is the list of classes.
//!
//! ```text
//! let job = WideDirect { alloc, plan: &plan, gate: &OpenGate, workers: 4 };
//! let releases: Vec<Release<ArenaTree>> = wide_direct(&rt, &job)?;
//! let merge = WideMerge { alloc, plan: &plan, gate: &OpenGate, stream: 0, wave: 2 };
//! let all: Contribution<ArenaTree> = wide_tree(&rt, &merge, 4)?;
//! let found = wide_classes(&rt, alloc, all.tree(), 4)?;
//! ```
//!
//! The definitions are in `specs/Waves.antt`, `specs/Parts.antt`, `specs/ClassLists.antt` and `specs/Joining.antt`.
#![tactic(auto)]

mod class_parts;
mod direct;
mod laws;
mod parts;
mod united;

pub use class_parts::wide_classes;
pub use direct::{WideDirect, wide_direct};
pub use laws::lists_of_classes;
pub use parts::{WideMerge, wide_tree};
pub use united::unite;
