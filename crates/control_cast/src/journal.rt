//! The journal of a cast.

ghost use Rattle.std.specs.Prelude.{◌≡◌, ◌<◌, ◌∷◌, ◌++◌, ◌↔◌, [], length, IsTrue, Some, OnErr, OnOk, slice_get};

use crate::event::CastEvent;
use std::alloc::{AllocError, Global};
use std::marker::Model;

/// The events of a cast, in the order in which they happened. To a contract it is that list.
#[derive(Drop)]
pub struct CastJournal {
    events: Vec<CastEvent>,
}

impl Model for CastJournal {
    ghost use Rattle.std.specs.Prelude.{List};
    ghost use Rattle.control_cast.specs.declared.event.CastEvent.{CastEvent};

    ghost Value = { List CastEvent };

    ghost view = { λ journal. journal.events.items };
}

impl CastJournal {
    /// A journal with no event. Takes no memory.
    pub fn new(alloc: Global) -> CastJournal
        ensures { result ≡ [] }
    {
        CastJournal {
            events: Vec::new(alloc),
        }
    }

    /// Adds an event at the end. Where memory runs out, the journal stays as it was.
    pub fn push(&mut self, event: CastEvent) -> Result<(), AllocError>
        ensures ok { OnOk result (self.new ≡ self.old ++ event ∷ []) }
        ensures err { OnErr result (self.new ≡ self.old) }
    {
        self.events.push(event)?;
        Ok(())
    }

    /// How many events there are.
    pub fn len(&self) -> u64
        ensures { result ≡ length self.now }
    {
        self.events.len() as u64
    }

    /// Whether there is none.
    pub fn is_empty(&self) -> bool
        ensures { IsTrue result ↔ (self.now ≡ []) }
    {
        self.events.is_empty()
    }

    /// The `i`-th event, from 0.
    pub fn at(&self, i: u64) -> CastEvent
        requires { i < length self.now }
        ensures { slice_get self.now i ≡ Some result }
    {
        self.events[i as usize]
    }
}
