//! What a node of the overlay knows of each of its waves: what has come in, what it passed on, and the wave's timer.
//!
//! A contract sees a `WaveBook` as a list of waves with their states, ascending by stream and wave. `book_of` is the
//! machine's book of such a list.
#![tactic(auto)]

mod book;
mod changes;
mod entry;
mod find;
mod queries;
mod start;
mod state;

pub use book::WaveBook;
pub use state::WaveState;
