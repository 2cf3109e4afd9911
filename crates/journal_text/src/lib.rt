//! A journal as a text, written and read.
//!
//! The text has one line for each event, with its words parted by one space:
//!
//! ```text
//! sample NODE STREAM WAVE
//! recv NODE FROM
//! tick NODE
//! lose NODE
//! ```
//!
//! Nodes go by their names in the plan, streams and waves by their numbers in decimal, without leading zeros. The last
//! line's line feed may be missing, and a carriage return directly before a line's end belongs to it. Every other line
//! is bad, the empty one too. A line may say an event that can't happen: a node takes samples of a stream that it
//! doesn't serve.
//!
//! `specs/Text.antt` says how a journal is written, and `specs/Reading.antt` what a text says.
#![tactic(auto)]

mod laws;
mod lines;
mod numbers;
mod read;
mod words;
mod write;

pub use laws::{a_line_says_one_event, journals_are_read_back, what_is_read_is_of_the_plan};
pub use read::{JournalRead, read_journal};
pub use write::write_journal;
