//! Reads stacks of processes as a debugger prints them.
//!
//! Lines say which process and which thread follow, and then the calls of the thread, the innermost first: for each its
//! number, its address, its function and the file that the function is in, and perhaps the offset in that file and a
//! place in the source. No text is refused: a line that is none of a printed stack is odd, and names are bytes of any
//! kind. `specs/Lines.antt` says what a line says, `specs/Threads.antt` and `specs/Processes.antt` what lines print, and
//! `specs/Bare.antt` how the addresses are taken out, in which processes differ that are at the same calls.
#![tactic(auto)]

mod bare;
mod binaries;
mod lines;
mod processes;
mod texts;
mod threads;

pub use bare::{addresses_say_nothing, push_bare};
pub use lines::{Line, read_line};
pub use processes::{Process, read_process};
pub use texts::NUMBER_LIMIT;
pub use threads::{Thread, joined_lines_are_read_back, read_thread};
