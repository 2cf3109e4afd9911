//! The files of a call: which are read, in which order, what they lead to, and why a call stops at one of them.
//!
//! [`read_plan`] reads the three files of a plan from a desk, and tests each before the next is read; [`read_values`]
//! reads the numbers of a plan's ranks, and [`read_file`] any file whole. What keeps a call from its output is a
//! [`Status`].
//!
//! ```text
//! let plan = read_plan(alloc, files, &mut desk)?;     // or the status of the first file that is refused
//! let values = read_values(alloc, &mut desk, "ranks.val", &plan)?;
//! ```
//!
//! `specs/Files.antt` lists the files that the words of a call name, with their limits; `specs/NextStep.antt` says by
//! what was read so far which file is next, which answer there is, or which task (`specs/Tasks.antt`); and
//! `specs/Reading.antt` what has been read, and why a call stops. `specs/Status.antt` says what a refusal says.
#![tactic(auto)]

mod read;
mod status;

pub use read::{read_file, read_plan, read_values};
pub use status::{FileRole, Outcome, Status, Target};
