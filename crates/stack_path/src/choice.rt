//! What the user chooses of paths.

use frame_name::Words;

/// How recursion is shown.
#[derive(Debug, Clone, Copy, PartialEq, Eq)]
pub enum Recursion {
    /// A cycle of at most 32 calls that comes twice in a row is shown once.
    Cycles,
    /// A call of a function that is shown already takes the path back to it.
    Loops,
    /// Each call is shown.
    Each,
}

/// Where paths end.
#[derive(Drop)]
pub enum End {
    /// Below the calls in which a rank waits for others, but for the program's own code; and at each frame whose name one
    /// of these words fits.
    Calls(Words),
    /// Nowhere: all frames are shown.
    Whole,
}

/// What the user chooses of paths.
#[derive(Drop)]
pub struct Choice {
    pub end: End,
    pub recursion: Recursion,
}
