//! What the user chooses of frames.

use crate::Words;

/// What the user chooses of frames.
#[derive(Drop)]
pub struct Rules {
    /// Words for the names of the shared libraries that are the program's own. They are without a directory and without
    /// a version: `libhalo.so` for `/opt/app/libhalo.so.1.2`.
    pub own: Words,
    /// Whether frames show the source file and the line.
    pub keeps_lines: bool,
}
