//! What went by, for contracts alone.
ghost use Rattle.std.specs.Prelude.{◌≡◌, ◌++◌, [], List, ℕ};

use std::marker::Model;

/// Bytes that went by, in order, which contracts alone can read. It has no bytes itself, and takes no memory.
#[derive(Drop)]
pub struct History {
    ghost bytes: { List ℕ },
}

impl Model for History {
    ghost use base.Fml.{ftrue};

    ghost also_owns = { λ _. ftrue };
}

impl History {
    /// Nothing went by yet.
    pub fn new() -> History
        ensures { result.bytes ≡ [] }
    {
        History {}
    }

    /// This piece alone went by.
    pub fn of(piece: &[u8]) -> History
        ensures { result.bytes ≡ piece.now }
    {
        let mut history = History::new();
        history.note(piece);
        history
    }

    /// A piece went by.
    pub fn note(&mut self, piece: &[u8])
        ensures { self.new.bytes ≡ self.old.bytes ++ piece.now }
    {
        // for the proof: the piece is noted in the ghost field alone
        let _ = piece;
    }
}
