//! Streams of frames, in pieces of any length.

ghost use Rattle.std.specs.Prelude.{◌≡◌, ◌<◌, ◌+◌, ◌^◌, ◌≤◌, length, map, drop, [], None, IfOk, IfErr, OnOk, OnErr};
ghost use Rattle.packet_frame.specs.Reading.{IsOn};
ghost use Rattle.packet_frame.specs.Sent.{packet_map};
ghost use Rattle.packet_frame.specs.Feeding.{Feeds, Ends, FramesOf, IsWithin};
ghost use Rattle.packet_frame.specs.Answers.{result_map};

use crate::error::{FrameError, FrameReason};
use crate::packet::Packet;
use crate::reader::Reader;
use prefix_tree::PrefixTree;
use std::alloc::Global;
use std::marker::Model;

/// A stream of frames that comes in pieces: the bytes that wait for the rest of their frame, how many bytes the frames
/// before them took, and the refusal, if one was given. Each byte is read once, however the stream is cut; only after
/// running out of memory the bytes that wait are read again.
#[derive(Drop)]
pub struct Feeder<T: PrefixTree> {
    before: u64,
    rest: Vec<u8>,
    // How far the rest was read.
    reader: Reader<T>,
    // The offset in the rest of the field in which it ends.
    waiting: usize,
    refusal: Option<(u64, FrameReason)>,
}

impl<T: PrefixTree> Model for Feeder<T> {
    ghost use Rattle.std.specs.Prelude.{option_map};
    ghost use Rattle.packet_frame.specs.Streams.{Fed};
    ghost use Rattle.packet_frame.specs.Feeding.{coded_fed, refused_at, IsFed};

    ghost Value = { Fed };

    ghost coded = { coded_fed };

    ghost view = { λ a.
        record {
          before = a.before;
          rest = a.rest.items;
          refusal = option_map (λ r. refused_at r.0 r.1) a.refusal;
        } };

    ghost invariant = { λ a. IsFed a.before a.reader a.rest.items a.waiting a.refusal };
}

// The packets of the frames at the front of the bytes, each with its frame's length, and how many bytes they take. The
// reader goes on where it stopped in the first of them, and stops in the one behind them.
fn packets_at<T: PrefixTree>(
    alloc: Global,
    reader: &mut Reader<T>,
    bytes: &[u8],
) -> Result<(Vec<(Packet<T>, usize)>, usize), FrameError>
    requires { IsOn reader.old bytes.now }
    ensures frames { FramesOf bytes.now
        (result_map (λ x. (map (λ p. (packet_map T.tree p.0, p.1)) x.0.items, x.1)) result) reader.new }
    ensures within { IfOk result (λ x. x.1 ≤ length bytes.now) }
    ensures offset { IfErr result (IsWithin bytes.now) }
{
    let mut packets = Vec::new(alloc);
    let mut taken = 0;
    loop {
        let (_, rest) = bytes.split_at(taken);
        match reader.run(alloc, rest) {
            Ok(true) => {}
            Ok(false) => return Ok((packets, taken)),
            Err(FrameError::Refused { at, reason }) => {
                return Err(FrameError::Refused {
                    at: taken as u64 + at,
                    reason,
                });
            }
            Err(FrameError::OutOfMemory) => return Err(FrameError::OutOfMemory),
        }
        let packet = reader.scan.take_packet(alloc);
        packets.push((packet, reader.at))?;
        taken += reader.at;
        reader.restart();
    }
}

// The same for bytes that wait, from which those of the frames are taken off. On failure they stay as they were.
fn packets_in<T: PrefixTree>(
    alloc: Global,
    reader: &mut Reader<T>,
    rest: &mut Vec<u8>,
) -> Result<(Vec<(Packet<T>, usize)>, usize), FrameError>
    requires { IsOn reader.old rest.old.items }
    ensures frames { FramesOf rest.old.items
        (result_map (λ x. (map (λ p. (packet_map T.tree p.0, p.1)) x.0.items, x.1)) result) reader.new }
    ensures rest { IfOk result (λ x. rest.new.items ≡ drop x.1 rest.old.items) }
    ensures within { IfOk result (λ x. x.1 ≤ length rest.old.items) }
    ensures offset { IfErr result (IsWithin rest.old.items) }
    ensures err { OnErr result (rest.new.items ≡ rest.old.items) }
{
    let (packets, taken) = packets_at(alloc, reader, rest.as_slice())?;
    if taken > 0 {
        let (_, left) = rest.as_slice().split_at(taken);
        *rest = Vec::from_slice(alloc, left)?;
    }
    Ok((packets, taken))
}

impl<T: PrefixTree> Feeder<T> {
    /// A stream of which no byte has come.
    pub fn new(alloc: Global) -> Feeder<T>
        ensures before { result.before ≡ 0 }
        ensures rest { result.rest ≡ [] }
        ensures refusal { result.refusal ≡ None }
    {
        Feeder {
            before: 0,
            rest: Vec::new(alloc),
            reader: Reader::new(alloc),
            waiting: 0,
            refusal: None,
        }
    }

    /// The packets of the frames that become whole with this piece, each with its frame's length in bytes.
    ///
    /// A frame is refused as soon as a field breaks its rule, at its offset from the first byte that was ever fed. Then
    /// the piece gives no packets, and each later call of `feed` and `finish` returns the same error. The error is
    /// never `Short`. On failure the bytes that wait stay as they were; after running out of memory the same piece may
    /// be fed again.
    pub fn feed(
        &mut self,
        alloc: Global,
        piece: &[u8],
    ) -> Result<Vec<(Packet<T>, usize)>, FrameError>
        requires { self.old.before + length self.old.rest + length piece.now < 2 ^ 64 }
        ensures total { OnOk result (self.new.before + length self.new.rest
            ≡ self.old.before + length self.old.rest + length piece.now) }
        ensures kept { OnErr result ((self.new.before ≡ self.old.before) × (self.new.rest ≡ self.old.rest)) }
        ensures feeds { Feeds self.old piece.now
            (result_map (λ all. map (λ p. (packet_map T.tree p.0, p.1)) all.items) result) self.new }
    {
        if let Some((at, reason)) = self.refusal {
            return Err(FrameError::Refused { at, reason });
        }
        let len = self.rest.len();
        self.rest.extend_from_slice(piece)?;
        match packets_in(alloc, &mut self.reader, &mut self.rest) {
            Ok((packets, taken)) => {
                self.before += taken as u64;
                self.waiting = self.reader.at;
                Ok(packets)
            }
            Err(FrameError::Refused { at, reason }) => {
                self.rest.truncate(len);
                let at = self.before + at;
                self.refusal = Some((at, reason));
                Err(FrameError::Refused { at, reason })
            }
            Err(FrameError::OutOfMemory) => {
                self.rest.truncate(len);
                self.reader.restart();
                Err(FrameError::OutOfMemory)
            }
        }
    }

    /// Checks that the stream may end here, with all its frames whole. Otherwise the error is the refusal that `feed`
    /// returned, or `Short` at the field in which the bytes end.
    pub fn finish(&self) -> Result<(), FrameError>
        ensures { Ends self.now result }
    {
        if let Some((at, reason)) = self.refusal {
            return Err(FrameError::Refused { at, reason });
        }
        if self.rest.as_slice().is_empty() {
            return Ok(());
        }
        Err(FrameError::Refused {
            at: self.before + self.waiting as u64,
            reason: FrameReason::Short,
        })
    }
}
