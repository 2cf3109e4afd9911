//! The report of a cast and its journal, as texts.
//!
//! The report says of each command which ranks obeyed it, lost ones too, and of each daemon how many commands it
//! obeyed; the journal has one line for each event:
//!
//! ```text
//! command 1 ranks 4:[0-3]         issue fe:0
//! daemon a:0 obeyed 1             recv a:0 fe:0
//! daemon b:0 obeyed 1 lost        lose b:0
//! end
//! ```
//!
//! A caller:
//!
//! ```text
//! let mut net = CastNet::new(alloc, &plan, 1)?;
//! let journal = net.run_picked(seed)?;
//! let report = report_text(alloc, &net)?;
//! let events = journal_text(alloc, &plan, &journal)?;
//! ```
//!
//! `specs/CastText.antt` says what both texts are, and `specs/Rows.antt` has small jobs as examples.
#![tactic(auto)]

mod journal;
mod report;

pub use journal::journal_text;
pub use report::report_text;
