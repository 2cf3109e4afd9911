//! Packets of bytes.

ghost use Rattle.packet_frame.specs.Answers.{Gives};
ghost use Rattle.packet_frame.specs.Sent.{packet_map, as_packet};
ghost use Rattle.packet_frame.specs.Reading.{first_of};

use crate::error::{FrameError, FrameReason};
use crate::packet::Packet;
use crate::reader::Reader;
use prefix_tree::PrefixTree;
use std::alloc::Global;

/// The packet at the front of the bytes, and how many bytes its frame takes. Any bytes may follow it. Frames of
/// versions 1 and 2 are read; their fields are in docs/FORMATS.md.
///
/// If no frame begins the bytes, the error is the refusal of the first field that is whole and breaks its rule, at the
/// offset of its first byte, or `Short` at the field in which the input ends.
pub fn decode<T: PrefixTree>(alloc: Global, bytes: &[u8]) -> Result<(Packet<T>, usize), FrameError>
    ensures { Gives (λ x. (packet_map T.tree x.0, x.1)) result (as_packet (first_of bytes.now)) }
{
    let mut reader: Reader<T> = Reader::new(alloc);
    if !reader.run(alloc, bytes)? {
        return Err(FrameError::Refused {
            at: reader.at as u64,
            reason: FrameReason::Short,
        });
    }
    let packet = reader.scan.take_packet(alloc);
    Ok((packet, reader.at))
}
