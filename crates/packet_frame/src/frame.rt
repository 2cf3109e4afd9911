//! A frame's bytes.

use std::marker::Model;

/// The bytes of one packet, in version 2.
#[derive(Drop)]
pub struct Frame {
    pub(crate) bytes: Vec<u8>,
}

impl Model for Frame {
    ghost use Rattle.std.specs.Prelude.{List, ℕ};

    ghost Value = { List ℕ };

    ghost view = { λ a. a.bytes.items };
}

impl Frame {
    ghost use Rattle.std.specs.Prelude.{◌≡◌};

    /// The bytes.
    pub fn bytes(&self) -> &[u8]
        ensures { result.now ≡ self.now }
    {
        self.bytes.as_slice()
    }
}
