//! The events of the overlay's machine; the journal, which lists those of a run in order; and the gate, which each
//! event of a run passes once.
//!
//! Contracts see a [`Journal`] as the list of its events. A caller:
//!
//! ```text
//! let mut journal = Journal::new(alloc);
//! journal.push(Event::Tick { node: 3 })?;     // the journal is now `Tick 3 ∷ []`
//! assert!(rt; journal.at(0).node() == 3);
//! ```
//!
//! `specs/Events.antt` says at which node an event happens. What an event does is the machine's: `overlay_core`.
#![tactic(auto)]

mod event;
mod gate;
mod journal;

pub use event::Event;
pub use gate::{Gate, OpenGate};
pub use journal::Journal;
