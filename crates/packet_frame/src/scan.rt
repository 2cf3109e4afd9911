//! The fields of a frame, one after another, wherever the input ends.

ghost use Rattle.std.specs.Prelude.{◌≡◌, length, OnOk};
ghost use Rattle.packet_frame.specs.Sent.{packet_map};
ghost use Rattle.packet_frame.specs.Scanning.{left, left_at, Takes, IsReady, field_width, packet_read};

use crate::error::FieldError;
use crate::packet::{ATTACH, DONE, Packet, UP};
use crate::row_tree::RowTree;
use call_path::PathBuilder;
use prefix_tree::PrefixTree;
use rank_places::CoverPlaces;
use rank_set::RankSet;
use std::alloc::Global;

/// Which field comes next.
#[derive(Clone, Copy, Debug, PartialEq, Eq)]
pub enum Field {
    Version,
    Kind,
    Stream,
    Wave,
    RunCount,
    FirstRank,
    LastRank,
    Offset,
    WordCount,
    Word,
    RowCount,
    Depth,
    NameLength,
    Name,
    /// No field: the frame is whole.
    End,
}

/// Whose set of ranks is being read.
#[derive(Clone, Copy, Debug, PartialEq, Eq)]
pub enum Part {
    Coverage,
    Ends,
}

/// The coverage of a tree, as far as it was read.
#[derive(Drop)]
pub struct Coverage {
    pub ranks: RankSet,
    /// The places of its ranks, once it is whole.
    pub places: CoverPlaces,
    /// How many ranks it has, once it is whole.
    pub count: u32,
}

/// A set of numbers, as far as it was read.
#[derive(Drop)]
pub struct SetScan {
    /// Whose set it is.
    pub part: Part,
    /// The index of its first word.
    pub offset: u16,
    pub words: Vec<u64>,
}

/// A row, as far as it was read, and what it needs of the row before.
#[derive(Drop)]
pub struct RowScan {
    /// How many rows are left, with this one.
    pub left: u16,
    /// The path of the row before, or, from its name on, of this row.
    pub path: PathBuilder,
    /// Whether the row before has ends.
    pub ended: bool,
    pub depth: u8,
    pub name_length: u16,
}

/// What was read of a frame so far, and which field comes next.
#[derive(Drop)]
pub struct Scan<T: PrefixTree> {
    pub field: Field,
    pub version: u8,
    pub kind: u8,
    pub stream: u8,
    pub wave: u8,
    pub cover: Coverage,
    /// The least rank with which the next run may begin, or its first rank where its last comes next.
    pub least: u32,
    pub set: SetScan,
    /// How many words or runs are left.
    pub left: u32,
    pub row: RowScan,
    /// The tree of the rows that were read.
    pub tree: RowTree<T>,
}

impl<T: PrefixTree> Scan<T> {
    /// Before the first field of a frame.
    pub fn new(alloc: Global) -> Scan<T>
        ensures { result.field ≡ Field.Version }
    {
        Scan {
            field: Field::Version,
            version: 0,
            kind: 0,
            stream: 0,
            wave: 0,
            cover: Coverage {
                ranks: RankSet::new(alloc),
                places: CoverPlaces::new(alloc),
                count: 0,
            },
            least: 0,
            set: SetScan {
                part: Part::Coverage,
                offset: 0,
                words: Vec::new(alloc),
            },
            left: 0,
            row: RowScan {
                left: 0,
                path: PathBuilder::new(alloc),
                ended: true,
                depth: 0,
                name_length: 0,
            },
            tree: RowTree::new(alloc),
        }
    }

    /// Takes out the packet of a frame that was read to its end.
    pub fn take_packet(&mut self, alloc: Global) -> Packet<T>
        ensures { packet_map T.tree result ≡ packet_read self.old }
    {
        match self.kind {
            UP => Packet::Up {
                stream: self.stream,
                wave: self.wave,
                tree: self.tree.take(alloc),
            },
            DONE => Packet::Done {
                stream: self.stream,
                wave: self.wave,
            },
            ATTACH => Packet::Attach,
            _ => Packet::Down,
        }
    }

    // How many bytes a field has that comes next.
    #[inline(always)]
    pub fn width(&self, field: Field) -> usize
        ensures { result ≡ field_width field self.now }
    {
        match field {
            Field::Version | Field::Kind | Field::Stream | Field::Wave | Field::Depth => 1,
            Field::Offset | Field::WordCount | Field::RowCount | Field::NameLength => 2,
            Field::RunCount | Field::FirstRank | Field::LastRank => 4,
            Field::Word => 8,
            Field::Name => self.row.name_length as usize,
            Field::End => 0,
        }
    }

    // Takes the bytes of the field that comes next.
    #[inline(always)]
    pub fn take(&mut self, alloc: Global, field: Field, bytes: &[u8]) -> Result<(), FieldError>
        requires next { self.old.field ≡ field }
        requires ready { IsReady field self.old }
        requires width { length bytes.now ≡ field_width field self.old }
        ensures takes { Takes (left_at field self.old) bytes.now result (left self.new) }
        ensures ready { OnOk result (IsReady self.new.field self.new) }
    {
        match field {
            Field::Version => self.take_version(bytes),
            Field::Kind => self.take_kind(bytes),
            Field::Stream => self.take_stream(bytes),
            Field::Wave => self.take_wave(bytes),
            Field::RunCount => self.take_run_count(alloc, bytes),
            Field::FirstRank => self.take_first_rank(bytes),
            Field::LastRank => self.take_last_rank(alloc, bytes),
            Field::Offset => self.take_offset(bytes),
            Field::WordCount => self.take_word_count(alloc, bytes),
            Field::Word => self.take_word(alloc, bytes),
            Field::RowCount => self.take_row_count(alloc, bytes),
            Field::Depth => self.take_depth(bytes),
            Field::NameLength => self.take_name_length(bytes),
            Field::Name => self.take_name(bytes),
            Field::End => Ok(()),
        }
    }
}
