//! A whole run on several workers: threads that share one board by a turn, and work on different nodes at the same
//! time.
//!
//! [`run_workers`] does the events of a plan until none may come next. Each worker takes the turn, claims the next
//! event of a node that no other has, gives the turn back, works on the node alone, takes the turn again and commits.
//! The [`NetBoard`] is what they share: the net, the journal so far, and who has which node out.
//!
//! ```text
//! let ran: Ran<OwnedTree> = run_workers(rt, alloc, &plan, 4, &gate)?;
//! ran.journal     // the events, in the order in which they were committed
//! ran.releases    // what the front end has released, in order
//! ```
//!
//! Whatever the number of workers and however they take turns, the journal is whole, and the releases are those that it
//! leads to on one thread: `IsWholeRun` in `specs/Boards.antt`. What a board and a seat know is there and in
//! `specs/Seats.antt`. `docs/THREADS.md` says why this holds, and who sleeps when.
#![tactic(auto)]

mod board;
mod given;
mod run;
mod worker;

pub use board::{NetBoard, Ran};
pub use run::run_workers;
