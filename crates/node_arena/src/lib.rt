//! An arena: a list of values that are reached by their number, never move in memory, and are
//! dropped together.
//!
//! Room is made before it is needed. [`Arena::reserve`] is the only call that takes memory, so the
//! only one that can fail; each [`Arena::put`] after it uses one place of the room and cannot fail.
//! So a caller can make all room first, and then change what it has without being stopped halfway.
//!
//! ```text
//! let mut arena = Arena::new(alloc);
//! arena.reserve(2)?;
//! let first = arena.put("a");     // 0
//! let second = arena.put("b");    // 1
//! *arena.get_mut(first) = "c";
//! ```
//!
//! Values are in chunks of 64. A chunk is one block of memory, which stays where it is until the
//! arena is dropped: new chunks are added, and none is ever made longer.
#![tactic(auto)]

ghost use Rattle.std.specs.Prelude.{◌≡◌, ◌+◌, ◌^◌, ◌<◌, ◌≤◌, [], ◌∷◌, ◌++◌, length, max, slice_get, Some, IsOk, OnOk, OnErr};
ghost use Rattle.std.specs.Borrow.{sem};
ghost use Rattle.node_arena.specs.Layout.{IsGrown, IsCleared};

mod chunk;
mod slots;

use chunk::Chunk;
use std::alloc::{AllocError, Global};
use std::marker::Model;

/// The number of a value in its arena, from 0 on in the order of the puts. It is below 4,294,967,295,
/// so a caller may use that number to say that there is no place.
pub type Place = u32;

/// How many values a chunk has room for.
const CHUNK_CAPACITY: u32 = 64;

/// A list of values, each reached by its place, with room for more.
///
/// It is seen as the list of its values in the order of their places, `items`, and as the number of
/// puts that cannot fail, `spare`. Both together are below 4,294,967,296. An arena may go to another
/// thread where its values may.
#[derive(Drop)]
pub struct Arena<T> {
    chunks: Vec<Chunk<T>>,
    len: u32,
    spare: u32,
    alloc: Global,
}

impl<T> Model for Arena<T> {
    ghost use Rattle.node_arena.specs.Arena.{Arena as ArenaView, arena_code};

    ghost Value = { ArenaView T };

    ghost coded = { arena_code T.code };

    ghost use Rattle.node_arena.specs.Layout.{chunks_view, IsArena};

    ghost view = { λ a. record { items = chunks_view a.chunks.items; spare = a.spare } };

    ghost invariant = { λ a. IsArena a.chunks.items a.len a.spare };
}

impl<T> Arena<T> {
    ghost use Rattle.node_arena.specs.Lends.{lends_value};

    /// An arena without values or spare. It takes no memory.
    pub fn new(alloc: Global) -> Arena<T>
        ensures items { result.items ≡ [] }
        ensures spare { result.spare ≡ 0 }
    {
        Arena {
            chunks: Vec::new(alloc),
            len: 0,
            spare: 0,
            alloc,
        }
    }

    /// The number of values.
    pub fn len(&self) -> u32
        ensures { result ≡ length self.now.items }
    {
        self.len
    }

    /// How many more values can be put without a `reserve`.
    pub fn spare(&self) -> u32
        ensures { result ≡ self.now.spare }
    {
        self.spare
    }

    /// Makes room for `n` more values: the spare is then `n`, or what it was if that is more. The
    /// number of values and `n` together must be below 4,294,967,296.
    ///
    /// Fails only if memory runs out, and never if the spare is enough already. The arena is then
    /// as it was; memory that was got before the failure serves the next `reserve`.
    pub fn reserve(&mut self, n: u32) -> Result<(), AllocError>
    where
        T: Drop,
        requires { length self.old.items + n < 2 ^ 32 }
        ensures items { self.new.items ≡ self.old.items }
        ensures spare { OnOk result (self.new.spare ≡ max self.old.spare n) }
        ensures enough { n ≤ self.old.spare → IsOk result }
        ensures unchanged { OnErr result (self.new ≡ self.old) }
    {
        if n <= self.spare {
            return Ok(());
        }
        let wanted = (self.len + n - 1) / CHUNK_CAPACITY + 1;
        grow(&mut self.chunks, wanted as usize, self.alloc)?;
        self.spare = n;
        Ok(())
    }

    /// Appends a value, and returns its place. It uses one of the spare, of which there must be one,
    /// and cannot fail.
    pub fn put(&mut self, value: T) -> Place
        requires { 1 ≤ self.old.spare }
        ensures place { result ≡ length self.old.items }
        ensures items { self.new.items ≡ self.old.items ++ value ∷ [] }
        ensures spare { self.new.spare + 1 ≡ self.old.spare }
    {
        let place = self.len;
        self.chunks[(place / CHUNK_CAPACITY) as usize].push(value);
        self.len = place + 1;
        self.spare -= 1;
        place
    }

    /// The value at a place, which must be below the number of values.
    pub fn get(&self, place: Place) -> &T
        requires { place < length self.now.items }
        ensures { slice_get self.now.items place ≡ Some result.now }
    {
        self.chunks[(place / CHUNK_CAPACITY) as usize].get((place % CHUNK_CAPACITY) as usize)
    }

    /// The value at a place, to be changed. The place must be below the number of values. All other
    /// values and the spare stay as they are.
    pub fn get_mut(&mut self, place: Place) -> &mut T
        requires { place < length self.old.items }
        ensures* writes_back { sem 𝓛 (lends_value T.row self.entry place result) }
        ensures value { slice_get self.old.items place ≡ Some result.now }
    {
        self.chunks[(place / CHUNK_CAPACITY) as usize].get_mut((place % CHUNK_CAPACITY) as usize)
    }

    /// Drops all values, each once. Their room is then spare, and no memory is given back.
    pub fn clear(&mut self)
    where
        T: Drop,
        ensures items { self.new.items ≡ [] }
        ensures spare { self.new.spare ≡ length self.old.items + self.old.spare }
    {
        clear_chunks(&mut self.chunks);
        self.spare += self.len;
        self.len = 0;
    }
}

/// Appends empty chunks until there are `wanted`. On failure it may have appended some.
fn grow<T: Drop>(chunks: &mut Vec<Chunk<T>>, wanted: usize, alloc: Global) -> Result<(), AllocError>
    ensures grown { IsGrown chunks.old.items chunks.new.items }
    ensures enough { OnOk result (wanted ≤ length chunks.new.items) }
{
    while chunks.len() < wanted {
        let chunk = Chunk::new(alloc, CHUNK_CAPACITY as usize)?;
        chunks.push(chunk)?;
    }
    Ok(())
}

/// Drops the values of each chunk.
fn clear_chunks<T: Drop>(chunks: &mut Vec<Chunk<T>>)
    ensures { IsCleared chunks.old.items chunks.new.items }
{
    for k in 0..chunks.len() {
        chunks[k].clear();
    }
}
