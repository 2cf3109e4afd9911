//! The outside as traits. A desk gives files by name, whole or in pieces, and a sink takes bytes; each counts its
//! faults, so that a caller can tell a fault of the outside from a fault of its own.
#![tactic(auto)]

mod desk;
mod given;
mod history;
mod mem_desk;
mod mem_sink;
mod sink;
mod system;

pub use desk::{Desk, DeskError, Feed};
pub use mem_desk::MemDesk;
pub use mem_sink::MemSink;
pub use sink::{Sink, SinkError, write_all_to};
pub use system::{FileDesk, FileSink, StdSink};

#[cfg(test)]
mod tests;
