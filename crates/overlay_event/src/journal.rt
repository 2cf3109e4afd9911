//! The journal of a run.
ghost use Rattle.std.specs.Prelude.{◌≡◌, ◌<◌, ◌∷◌, ◌++◌, [], length, Some, IsTrue, ◌↔◌, OnErr, OnOk, slice_get};
ghost use Rattle.std.specs.declared.alloc.Global.{Global};

use crate::Event;
use std::alloc::{AllocError, Global};
use std::marker::Model;

/// The events of a run, in the order in which they happened. To a contract it is that list.
#[derive(Drop)]
pub struct Journal {
    events: Vec<Event>,
}

impl Model for Journal {
    ghost use Rattle.std.specs.Prelude.{List};
    ghost use Rattle.overlay_event.specs.declared.event.Event.{Event};

    ghost Value = { List Event };

    ghost view = { λ journal. journal.events.items };
}

impl Journal {
    /// A journal with no event. Takes no memory.
    pub fn new(alloc: Global) -> Journal
        ensures { result ≡ [] }
    {
        Journal {
            events: Vec::new(alloc),
        }
    }

    /// Adds an event at the end. Where memory runs out, the journal stays as it was.
    pub fn push(&mut self, event: Event) -> Result<(), AllocError>
        ensures ok { OnOk result (self.new ≡ self.old ++ event ∷ []) }
        ensures err { OnErr result (self.new ≡ self.old) }
    {
        self.events.push(event)?;
        Ok(())
    }

    /// How many events there are.
    pub fn len(&self) -> u64
        ensures { result ≡ length self.now }
    {
        self.events.len() as u64
    }

    /// Whether there is none.
    pub fn is_empty(&self) -> bool
        ensures { IsTrue result ↔ (self.now ≡ []) }
    {
        self.events.is_empty()
    }

    /// The event of this number. The first has number 0.
    pub fn at(&self, number: u64) -> Event
        requires { number < length self.now }
        ensures { slice_get self.now number ≡ Some result }
    {
        self.events[number as usize]
    }
}
