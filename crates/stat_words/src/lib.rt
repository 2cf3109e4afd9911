//! The words of the command line. The first is the mode; `clap` reads the rest as one simple command of the mode's
//! options.
//!
//! [`read_words`] makes a [`Command`] of them, in which each number is in its range and each file has a name, or tells
//! what is wrong with which option ([`WordFault`]).
//!
//! ```text
//! // direct --topology job.top --samples job.smp --script job.scr --workers 4
//! let command = read_words(alloc, &words)?;    // Command::Direct { files, workers: 4, form: ReportForm::Text }
//! ```
//!
//! A contract sees the words as lists of bytes, and what they ask for as `asked` in `specs/Words.antt`; which words
//! each mode takes is in `specs/Modes.antt`, and what each value may be in `specs/Values.antt`.
#![tactic(auto)]

mod modes;
mod read;
mod values;
mod words;

pub use read::read_words;
pub use words::{
    Command, Files, Opt, ReportForm, RunReport, SumsReport, ViewReport, WordFault, WordsError,
};
