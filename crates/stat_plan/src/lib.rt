//! The plan of a job: what its three files say together, and the look-ups of it.
//!
//! [`Samples`] are where the ranks are and the paths that they were seen in, beside the `Topology` and the `Script` of
//! `overlay_setup`. A [`Plan`] is made of the three, and refuses waves with too many prefixes. Each type has an
//! invariant (`specs/Invariants.antt`).
//!
//! The words of the overlay's machine that several crates need are kept apart, in the module `machine` and in
//! `specs/Machine/`.
#![tactic(auto)]

mod expected;
mod files;
mod limit;
mod line_index;
mod line_list;
mod machine;
mod parted_lines;
mod path_order;
mod plan;
mod plan_error;
mod samples;
mod wave_lines;

pub use line_list::{LineList, LineRanks, ListedLine};
pub use machine::{Act, Timer};
pub use plan::Plan;
pub use plan_error::PlanError;
pub use samples::{LINE_LIMIT, Samples, StackLine, TIME_LIMIT, WaveLines};
pub use wave_lines::Wanted;
