//! What the reads of a desk gave, for contracts alone.
use crate::history::History;

/// What a file gave.
#[derive(Drop)]
pub enum Given {
    /// All its bytes, which contracts alone can read.
    Bytes(History),
    /// The first of its bytes, which are more than the caller allowed.
    TooLong(History),
}
