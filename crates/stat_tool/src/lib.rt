//! The top call: from words and files to a report.
//!
//! [`stat`] does what the words of the command line ask for. It knows no file, no thread and no tree of its own: a desk
//! gives the files by name, two sinks take the report and the journal, `rt` makes the threads, and `T` says how trees
//! are kept. [`run_words`] also tells how the program ends after the call, and [`run_program`] is the program itself,
//! over the real files and standard output.
//!
//! ```text
//! let outcome = stat::<R, ArenaTree, _, _, _, _>(rt, alloc, &words, &mut desk, &mut out, &mut journal, &gate);
//! outcome.status     // Done, or what kept the call from it
//! outcome.journal    // the events of the run, in order
//! ```
//!
//! A contract sees the desk and the sinks by what the call changed: which files were asked for and what they gave, and
//! which bytes were taken. `Answered` in `specs/Call.antt` is the headline, and can be read aloud. Below it,
//! `specs/Outputs.antt` says what may be written; which file is read next, and what there is to do then, is said in
//! `job_files`.
#![tactic(auto)]

mod call;
mod cast;
mod generated;
mod modes;
mod output;
mod program;
mod size;
mod sums;
mod view;

pub use call::stat;
pub use job_files::{FileRole, Outcome, Status, Target};
pub use program::{Ending, RefusalLine, ending_of, run_program, run_words};
pub use stat_words::WordFault;
