//! Version, kind, stream and wave.

ghost use Rattle.std.specs.Prelude.{◌≡◌, length, OnOk};
ghost use Rattle.packet_frame.specs.declared.scan.Field.TheVariants as fields;
ghost use Rattle.packet_frame.specs.Scanning.{left, left_at, Takes, IsReady};

use crate::error::{FieldError, FrameReason};
use crate::number::u8_of;
use crate::packet::{DONE, DOWN, UP};
use crate::scan::{Field, Part, Scan};
use prefix_tree::PrefixTree;

/// Streams are below this number.
const STREAM_LIMIT: u8 = 8;

/// Waves are below this number.
const WAVE_LIMIT: u8 = 16;

impl<T: PrefixTree> Scan<T> {
    #[tactic(auto, unfolding(crate::specs::Frame::frame_form, crate::specs::Frame::version_form))]
    pub fn take_version(&mut self, field: &[u8]) -> Result<(), FieldError>
        requires ready { IsReady fields.Version self.old }
        requires width { length field.now ≡ 1 }
        ensures takes { Takes (left_at fields.Version self.old) field.now result (left self.new) }
        ensures ready { OnOk result (IsReady self.new.field self.new) }
    {
        let version = u8_of(field);
        if version != 1 && version != 2 {
            return Err(FieldError::Broken(FrameReason::BadKind));
        }
        self.version = version;
        self.field = Field::Kind;
        Ok(())
    }

    #[tactic(auto, unfolding(crate::specs::Frame::kind_form, crate::specs::Frame::packet_form))]
    pub fn take_kind(&mut self, field: &[u8]) -> Result<(), FieldError>
        requires ready { IsReady fields.Kind self.old }
        requires width { length field.now ≡ 1 }
        ensures takes { Takes (left_at fields.Kind self.old) field.now result (left self.new) }
        ensures ready { OnOk result (IsReady self.new.field self.new) }
    {
        let kind = u8_of(field);
        if kind < UP || kind > DOWN {
            return Err(FieldError::Broken(FrameReason::BadKind));
        }
        self.kind = kind;
        if kind <= DONE {
            self.field = Field::Stream;
            return Ok(());
        }
        self.field = Field::End;
        Ok(())
    }

    #[tactic(auto, unfolding(crate::specs::Frame::stream_form))]
    pub fn take_stream(&mut self, field: &[u8]) -> Result<(), FieldError>
        requires ready { IsReady fields.Stream self.old }
        requires width { length field.now ≡ 1 }
        ensures takes { Takes (left_at fields.Stream self.old) field.now result (left self.new) }
        ensures ready { OnOk result (IsReady self.new.field self.new) }
    {
        let stream = u8_of(field);
        if stream >= STREAM_LIMIT {
            return Err(FieldError::Broken(FrameReason::OverLimit));
        }
        self.stream = stream;
        self.field = Field::Wave;
        Ok(())
    }

    #[tactic(auto, unfolding(crate::specs::Frame::wave_form, crate::specs::Frame::content_form, crate::specs::Frame::tree_form, crate::specs::Frame::coverage_form))]
    pub fn take_wave(&mut self, field: &[u8]) -> Result<(), FieldError>
        requires ready { IsReady fields.Wave self.old }
        requires width { length field.now ≡ 1 }
        ensures takes { Takes (left_at fields.Wave self.old) field.now result (left self.new) }
        ensures ready { OnOk result (IsReady self.new.field self.new) }
    {
        let wave = u8_of(field);
        if wave >= WAVE_LIMIT {
            return Err(FieldError::Broken(FrameReason::OverLimit));
        }
        self.wave = wave;
        if self.kind != UP {
            self.field = Field::End;
        } else if self.version == 1 {
            self.set.part = Part::Coverage;
            self.field = Field::Offset;
        } else {
            self.field = Field::RunCount;
        }
        Ok(())
    }
}
