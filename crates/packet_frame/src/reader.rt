//! Reads frames, wherever the input ends.

ghost use Rattle.std.specs.Prelude.{◌≡◌, ◌+◌, ◌<◌, ◌≤◌, [], true, false, OnOk, IfErr, Ok};
ghost use Rattle.packet_frame.specs.declared.scan.Field.TheVariants as fields;
ghost use Rattle.packet_frame.specs.Scanning.{field_width};
ghost use Rattle.packet_frame.specs.Reading.{IsOn, IsWhole, Waits, Fails};

use crate::error::{FieldError, FrameError, FrameReason};
use crate::scan::{Field, Scan};
use prefix_tree::PrefixTree;
use std::alloc::Global;

/// A frame that is being read: its fields so far, and the offset of the next field's first byte.
#[derive(Drop)]
pub struct Reader<T: PrefixTree> {
    pub at: usize,
    pub scan: Scan<T>,
}

impl<T: PrefixTree> Reader<T> {
    /// Before the first field of a frame.
    pub fn new(alloc: Global) -> Reader<T>
        ensures on { IsOn result [] }
        ensures start { result.at ≡ 0 }
    {
        Reader {
            at: 0,
            scan: Scan::new(alloc),
        }
    }

    /// Goes back before the first field of a frame.
    pub fn restart(&mut self)
        ensures on { IsOn self.new [] }
        ensures start { self.new.at ≡ 0 }
    {
        self.at = 0;
        self.scan.field = Field::Version;
    }

    // Reads the next field. Returns false if the input ends before the field does.
    fn read(&mut self, alloc: Global, bytes: &[u8]) -> Result<bool, FrameError>
        requires { IsOn self.old bytes.now }
        ensures on { OnOk result (IsOn self.new bytes.now) }
        ensures at { result ≡ Ok true → self.new.at ≡ self.old.at + field_width self.old.scan.field self.old.scan }
        ensures waits { result ≡ Ok false → Waits bytes.now self.new.at }
        ensures refused { IfErr result (Fails bytes.now) }
    {
        let field = self.scan.field;
        let width = self.scan.width(field);
        let (_, rest) = bytes.split_at(self.at);
        if rest.len() < width {
            return Ok(false);
        }
        let (front, _) = rest.split_at(width);
        match self.scan.take(alloc, field, front) {
            Ok(()) => {
                self.at += width;
                Ok(true)
            }
            Err(FieldError::Broken(reason)) => Err(FrameError::Refused {
                at: self.at as u64,
                reason,
            }),
            Err(FieldError::OutOfMemory) => Err(FrameError::OutOfMemory),
        }
    }

    // Reads rows in one go, up to the ends of the first that has some, or to the first that the fields are read of.
    #[inline(always)]
    fn read_rows(&mut self, bytes: &[u8]) -> Result<(), FrameError>
        requires on { IsOn self.old bytes.now }
        requires some { self.old.scan.field ≡ fields.End → ⊥ }
        ensures on { OnOk result (IsOn self.new bytes.now) }
        ensures some { OnOk result (self.new.scan.field ≡ fields.End → ⊥) }
        ensures at { OnOk result (self.old.at ≤ self.new.at) }
        ensures refused { IfErr result (Fails bytes.now) }
    {
        if self.scan.field != Field::Depth {
            return Ok(());
        }
        self.at = self.scan.take_rows(bytes, self.at)?;
        Ok(())
    }

    /// Reads on to the end of the frame or of the input, and returns whether the frame is whole. The bytes must still
    /// begin with those that were read before.
    pub fn run(&mut self, alloc: Global, bytes: &[u8]) -> Result<bool, FrameError>
        requires { IsOn self.old bytes.now }
        ensures on { OnOk result (IsOn self.new bytes.now) }
        ensures whole { result ≡ Ok true → IsWhole self.new bytes.now }
        ensures waits { result ≡ Ok false → Waits bytes.now self.new.at }
        ensures refused { IfErr result (Fails bytes.now) }
    {
        while self.scan.field != Field::End {
            self.read_rows(bytes)?;
            match self.read(alloc, bytes) {
                Ok(true) => (),
                other => return other,
            }
        }
        Ok(true)
    }
}
