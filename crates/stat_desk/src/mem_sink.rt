//! The sink in memory.
ghost use Rattle.std.specs.Prelude.{◌≡◌, ◌≤◌, ◌<◌, ◌^◌, ◌∷◌, ◌++◌, [], OnOk, OnErr, IfOk};
ghost use Rattle.stat_desk.specs.Faults.{next_count};
ghost use Rattle.stat_desk.specs.MemSink.{after_write, new_sink, sink_seen, write_answer};
ghost use Rattle.stat_desk.specs.Change.{change};
ghost use Rattle.stat_desk.specs.Sink.{HasNotTaken, TookFirst};

use crate::{Sink, SinkError};
use std::alloc::{AllocError, Global};
use std::marker::Model;

/// A sink in memory, with room that is fixed. It tells what it holds, and its writes fail where they are
/// told to and where no room is left. To a contract it is what it holds and how its writes have gone.
#[derive(Drop)]
pub struct MemSink {
    bytes: Vec<u8>,
    at_once: usize,
    room: usize,
    failing: Vec<u64>,
    stalling: Vec<u64>,
    calls: u64,
    faults: u64,
}

impl Model for MemSink {
    ghost use Rattle.std.specs.Prelude.{vec_len, vec_capacity};
    ghost use Rattle.stat_desk.specs.MemSink.{HasRoom, MemSinkView};

    ghost Value = { MemSinkView };

    ghost view = { λ s. record {
      bytes = s.bytes.items;
      at_once = s.at_once;
      room = s.room;
      failing = s.failing.items;
      stalling = s.stalling.items;
      calls = s.calls;
      faults = s.faults;
    } };

    ghost invariant = { λ s. HasRoom s.at_once (vec_len s.bytes) s.room (vec_capacity s.bytes) s.faults };
}

impl MemSink {
    /// A sink that takes at most `at_once` bytes a write, and `room` bytes in all. Takes the memory for
    /// them, so that a write takes none.
    pub fn new(alloc: Global, at_once: usize, room: usize) -> Result<MemSink, AllocError>
        requires { 1 ≤ at_once }
        ensures { IfOk result (λ s. s ≡ new_sink at_once room) }
    {
        Ok(MemSink {
            bytes: Vec::with_capacity(alloc, room)?,
            at_once,
            room,
            failing: Vec::new(alloc),
            stalling: Vec::new(alloc),
            calls: 0,
            faults: 0,
        })
    }

    /// Makes the write of this number fail. Writes are numbered from 1.
    pub fn fail_at(&mut self, call: u64) -> Result<(), AllocError>
        ensures ok { OnOk result (self.new ≡ record self.old { failing = self.old.failing ++ call ∷ [] }) }
        ensures err { OnErr result (self.new ≡ self.old) }
    {
        self.failing.push(call)?;
        Ok(())
    }

    /// Makes the write of this number find that nothing of its piece is taken: it fails, unless the piece is empty.
    /// Writes are numbered from 1.
    pub fn stall_at(&mut self, call: u64) -> Result<(), AllocError>
        ensures ok { OnOk result (self.new ≡ record self.old { stalling = self.old.stalling ++ call ∷ [] }) }
        ensures err { OnErr result (self.new ≡ self.old) }
    {
        self.stalling.push(call)?;
        Ok(())
    }

    /// The bytes that the sink holds.
    pub fn bytes(&self) -> &[u8]
        ensures { result.now ≡ self.now.bytes }
    {
        self.bytes.as_slice()
    }

    // Counts a write that failed.
    fn refuse(&mut self)
        ensures { self.new ≡ record self.old { faults = next_count self.old.faults } }
    {
        self.faults = self.faults.saturating_add(1);
    }
}

impl Sink for MemSink {
    ghost seen = { sink_seen };

    // `exactly` says what each write gives, and `state` what it leaves behind.
    fn write(&mut self, piece: &[u8]) -> Result<usize, SinkError>
        ensures ok { IfOk result (TookFirst (change sink_seen self.old self.new) piece.now) }
        ensures err { OnErr result (HasNotTaken (change sink_seen self.old self.new)) }
        ensures fits_u64 { self.new.faults < 2 ^ 64 }
        ensures state { self.new ≡ after_write self.old piece.now result }
        ensures exactly { result ≡ write_answer self.old piece.now }
    {
        self.calls = self.calls.saturating_add(1);
        let left = if self.stalling.contains(&self.calls) {
            0
        } else {
            self.room - self.bytes.len()
        };
        let count = piece.len().min(self.at_once).min(left);
        if self.failing.contains(&self.calls) || (count == 0 && !piece.is_empty()) {
            self.refuse();
            return Err(SinkError::Failed);
        }
        self.bytes
            .extend_from_slice(piece.split_at(count).0)
            .unwrap();
        Ok(count)
    }
}
