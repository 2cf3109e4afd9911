//! Slots that fill from the first on. They are made once, and no value moves to another slot.

ghost use Rattle.std.specs.Prelude.{◌≡◌, ◌<◌, [], ◌∷◌, ◌++◌, length, slice_get, Some, IfOk};
ghost use Rattle.std.specs.Borrow.{sem};
ghost use Rattle.node_arena.specs.Filled.{IsFilledTo};
ghost use Rattle.node_arena.specs.SlotWrites.{IsSameBlock};

use crate::slots::{Block, Slots};
use std::alloc::{AllocError, Global};
use std::marker::Model;
use std_alloc::room::may_hold;

/// Values in slots, and empty slots after them.
pub(crate) struct Chunk<T> {
    slots: Slots<T>,
    block: Block<T, Global>,
    alloc: Global,
    len: usize,
}

impl<T> Model for Chunk<T> {
    ghost use Rattle.std.specs.Prelude.{length};
    ghost use Rattle.node_arena.specs.Arena.{Chunk as ChunkView, chunk_code};

    ghost Value = { ChunkView T };

    ghost coded = { chunk_code T.code };

    ghost use Rattle.node_arena.specs.Filled.{slots_view, IsChunk};

    ghost view = { λ c. record { items = slots_view c.slots.contents; capacity = length c.slots.contents } };

    ghost invariant = { λ c. IsChunk c.slots c.block c.alloc c.len };
}

impl<T: Drop> Drop for Chunk<T> {
    fn drop(mut self) {
        self.clear();
        let Chunk {
            slots,
            block,
            alloc,
            len: _,
        } = self;
        Block::deallocate(&alloc, slots, block);
    }
}

impl<T> Chunk<T> {
    ghost use Rattle.node_arena.specs.Lends.{lends_item};

    /// A chunk of `capacity` empty slots.
    pub(crate) fn new(alloc: Global, capacity: usize) -> Result<Chunk<T>, AllocError>
        ensures items { IfOk result (λ c. c.items ≡ []) }
        ensures capacity { IfOk result (λ c. c.capacity ≡ capacity) }
    {
        if !may_hold::<T>(capacity) {
            return Err(AllocError);
        }
        let (slots, block) = Block::allocate(&alloc, capacity)?;
        Ok(Chunk {
            slots,
            block,
            alloc,
            len: 0,
        })
    }

    /// Appends a value, for which there is an empty slot.
    pub(crate) fn push(&mut self, value: T)
        requires { length self.old.items < self.old.capacity }
        ensures items { self.new.items ≡ self.old.items ++ value ∷ [] }
        ensures capacity { self.new.capacity ≡ self.old.capacity }
    {
        self.slots.write(self.len, value);
        self.len += 1;
    }

    /// The `i`-th value.
    pub(crate) fn get(&self, i: usize) -> &T
        requires { i < length self.now.items }
        ensures { slice_get self.now.items i ≡ Some result.now }
    {
        self.slots.get(i)
    }

    /// The `i`-th value, to be changed.
    pub(crate) fn get_mut(&mut self, i: usize) -> &mut T
        requires { i < length self.old.items }
        ensures* writes_back { sem 𝓛 (lends_item T.row self.entry i result) }
        ensures value { slice_get self.old.items i ≡ Some result.now }
    {
        self.slots.get_mut(i)
    }

    /// Drops all values, the last one first.
    pub(crate) fn clear(&mut self)
    where
        T: Drop,
        ensures items { self.new.items ≡ [] }
        ensures capacity { self.new.capacity ≡ self.old.capacity }
    {
        drop_values(&mut self.slots, self.len);
        self.len = 0;
    }
}

/// Drops the values in the first `len` slots, which are all that there are.
fn drop_values<T: Drop>(slots: &mut Slots<T>, len: usize)
    requires { IsFilledTo len slots.old.contents }
    ensures empty { IsFilledTo 0 slots.new.contents }
    ensures capacity { length slots.new.contents ≡ length slots.old.contents }
    ensures block { IsSameBlock slots.old slots.new }
{
    let mut left = len;
    while left > 0 {
        left -= 1;
        drop(slots.take(left));
    }
}
