//! Frames as text, one after another.

ghost use Rattle.std.specs.Prelude.{◌≡◌, ◌<◌, ◌+◌, ◌^◌, ◌++◌, length, [], codes, IfOk, OnOk};
ghost use Rattle.std.specs.Fmt.{decimal};
ghost use Rattle.capture_text.specs.CaptureText.{bytes_of, packet_views, packets_text};

use crate::packet_text::write_packet;
use packet_frame::Packet;
use prefix_tree::PrefixTree;
use std::alloc::{AllocError, Global};
use tree_text::{write_number, write_numbered};

/// The text of the frames so far.
#[derive(Drop)]
pub struct Printer {
    text: Vec<u8>,
    // How many bytes the frames took: the offset of the next one.
    at: usize,
    frames: usize,
}

impl Printer {
    /// No frame so far.
    pub fn new(alloc: Global) -> Printer
        ensures text { result.text.items ≡ [] }
        ensures offset { result.at ≡ 0 }
        ensures count { result.frames ≡ 0 }
    {
        Printer {
            text: Vec::new(alloc),
            at: 0,
            frames: 0,
        }
    }

    /// Appends the text of packets, each with its frame's length, and drops each as soon as it is written.
    pub fn write<T: PrefixTree>(
        &mut self,
        packets: Vec<(Packet<T>, usize)>,
    ) -> Result<(), AllocError>
        requires offset { self.old.at + bytes_of (packet_views T.tree packets.items) < 2 ^ 64 }
        requires count { self.old.frames + length packets.items < 2 ^ 64 }
        ensures text { OnOk result (self.new.text.items
            ≡ self.old.text.items ++ packets_text self.old.at (packet_views T.tree packets.items)) }
        ensures offset { OnOk result (self.new.at
            ≡ self.old.at + bytes_of (packet_views T.tree packets.items)) }
        ensures count { OnOk result (self.new.frames ≡ self.old.frames + length packets.items) }
    {
        for (packet, len) in packets {
            write_number(self.at, &mut self.text)?;
            write_packet(&packet, &mut self.text)?;
            self.at += len;
            self.frames += 1;
        }
        Ok(())
    }

    /// The whole text, with the number of frames at its end.
    pub fn end(self) -> Result<Vec<u8>, AllocError>
        ensures { IfOk result
            (λ text. text.items ≡ self.text.items ++ codes "end " ++ decimal self.frames ++ codes " frames\n") }
    {
        let Printer {
            mut text,
            frames,
            ..
        } = self;
        write_numbered(b"end ", frames, &mut text)?;
        text.extend_from_slice(b" frames\n")?;
        Ok(text)
    }
}
