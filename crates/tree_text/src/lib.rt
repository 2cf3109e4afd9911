//! Numbers and trees as text, for reports and for captures.
//!
//! A tree is written as a line for each row, in order: the row's depth as an indent, the ranks that pass there, those
//! of which a path ends there or a dash, and the frame. A caller:
//!
//! ```text
//! write_numbered(b"rows ", tree.rows(), &mut out)?;   // `rows 12`
//! out.push(b'\n')?;
//! write_tree(&tree, &mut out)?;                       // 12 lines
//! ```
//!
//! Each call appends to `out` exactly the text that `specs/TreeText.antt` says, or a number's decimal digits.
#![tactic(auto)]

mod numbers;
mod rows;

pub use numbers::{write_number, write_numbered};
pub use rows::{write_rows, write_tree};
