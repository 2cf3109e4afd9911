//! Slots side by side in one block of raw memory, each with a value or empty.
//!
//! All raw memory of the crate is here: two functions that get and give back a block, and four that
//! go to one slot. A value comes into a slot by `write` alone, which needs an empty slot, and out of
//! it by `take` alone; a block is given back only when every slot is empty.

ghost use Rattle.std.specs.Prelude.{◌≡◌, ◌^◌, ◌<◌, List, Option, Some, None, length, slice_index_or, slice_set, IsSome};
ghost use Rattle.std.specs.Prelude.{IfOk, replicate};
ghost use Rattle.std_alloc.specs.Vec.Ownership.{FitsInBlock};
ghost use Rattle.node_arena.specs.Ownership.{owned, lent, block_owned, IsEmpty};

use std::alloc::{AllocError, Allocator};
use std::marker::{Model, PhantomData, Send};
use std::mem::{align_of, size_of};

/// The slots of a block, with what they hold.
pub(crate) struct Slots<T> {
    start: *mut T,
    capacity: usize,
    pub(crate) ghost contents: { List (Option T) },
    ghost counted: { capacity ≡ length contents },
    ghost in_range: { capacity < 2 ^ 64 },
}

impl<T> Model for Slots<T> {
    ghost also_owns = { λ s. owned T.row s.start s.capacity s.contents };

    ghost also_shares = { λ s _ κ. lent T.row s.start s.capacity s.contents κ };
}

/// A block of memory as its allocator gave it, and with it the right to give it back.
pub(crate) struct Block<T, A: Allocator> {
    start: *mut T,
    capacity: usize,
    marker: PhantomData<A>,
    ghost alloc: { A },
}

impl<T, A: Allocator> Model for Block<T, A> {
    ghost also_owns = { λ b. block_owned (A.dealloc_token b.alloc) T.row b.start b.capacity };
}

// Slots may go to another thread where their values may, and a block where its allocator may.
unsafe impl<T: Send> Send for Slots<T> {}

unsafe impl<T, A: Allocator + Send> Send for Block<T, A> {}

impl<T, A: Allocator> Block<T, A> {
    ghost use Rattle.node_arena.specs.SlotWrites.{IsBlockOf};

    /// Gets a block with `capacity` empty slots from the allocator, and passes on its error.
    pub(crate) fn allocate(alloc: &A, capacity: usize) -> Result<(Slots<T>, Self), AllocError>
        requires { FitsInBlock T.row capacity }
        ensures { IfOk result (λ p. (p.0.contents ≡ replicate capacity None) × IsBlockOf p.1 p.0 alloc.now) }
    {
        match alloc.allocate(capacity * size_of::<T>(), align_of::<T>()) {
            Ok(block) => {
                let start = block as *mut T;
                let marker = PhantomData;
                Ok((
                    Slots { start, capacity },
                    Block {
                        start,
                        capacity,
                        marker,
                    },
                ))
            }
            Err(error) => Err(error),
        }
    }

    /// Gives the block of empty slots back to its allocator.
    pub(crate) fn deallocate(alloc: &A, slots: Slots<T>, block: Self)
        requires { IsBlockOf block slots alloc.now × IsEmpty slots.contents }
    {
        let Slots {
            start: _,
            capacity: _,
        } = slots;
        let Block {
            start,
            capacity,
            marker: _,
        } = block;
        unsafe {
            alloc.deallocate(start as *mut u8, capacity * size_of::<T>(), align_of::<T>());
        }
    }
}

impl<T> Slots<T> {
    ghost use Rattle.std.specs.Borrow.{sem};
    ghost use Rattle.node_arena.specs.SlotWrites.{lends_slot, IsSameBlock};

    /// Puts a value into the empty slot `i`.
    pub(crate) fn write(&mut self, i: usize, value: T)
        requires in_range { i < length self.old.contents }
        requires empty { slice_index_or self.old.contents i None ≡ None }
        ensures contents { self.new.contents ≡ slice_set self.old.contents i (Some value) }
        ensures block { IsSameBlock self.old self.new }
    {
        unsafe { self.start.add(i).write(value) }
    }

    /// Takes the value out of slot `i`, which is then empty.
    pub(crate) fn take(&mut self, i: usize) -> T
        requires { IsSome (slice_index_or self.old.contents i None) }
        ensures value { slice_index_or self.old.contents i None ≡ Some result }
        ensures contents { self.new.contents ≡ slice_set self.old.contents i None }
        ensures block { IsSameBlock self.old self.new }
    {
        unsafe { self.start.add(i).read() }
    }

    /// The value in slot `i`.
    pub(crate) fn get(&self, i: usize) -> &T
        requires { IsSome (slice_index_or self.now.contents i None) }
        ensures { slice_index_or self.now.contents i None ≡ Some result.now }
    {
        unsafe { &*self.start.add(i) }
    }

    /// The value in slot `i`, to be changed.
    pub(crate) fn get_mut(&mut self, i: usize) -> &mut T
        requires { IsSome (slice_index_or self.old.contents i None) }
        ensures* writes_back { sem 𝓛 (lends_slot T.row self.entry i result) }
        ensures value { slice_index_or self.old.contents i None ≡ Some result.now }
    {
        unsafe { &mut *self.start.add(i) }
    }
}
