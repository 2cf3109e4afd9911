//! The real desk and sinks. No contract says what the system contains; they count each of its errors.
ghost use Rattle.std.specs.Prelude.{◌≡◌, ◌<◌, ◌≤◌, ◌+◌, ◌^◌, [], length, map, None, IfOk, IfSome, OnErr, OnOk, vec_len, option_map, string_bytes};
ghost use Rattle.stat_desk.specs.Change.{change};
ghost use Rattle.stat_desk.specs.Desk.{Agrees, IsNotedLong, after_asking, after_fault, after_noting, new_desk};
ghost use Rattle.stat_desk.specs.Feeding.{FeedsGiven, FeedsPrefix};
ghost use Rattle.stat_desk.specs.Given.{result_of, results_of};
ghost use Rattle.stat_desk.specs.Sink.{new_sink_seen};

use crate::given::Given;
use crate::history::History;
use crate::{Desk, DeskError, Feed, Sink, SinkError};
use std::alloc::{AllocError, Global};
use std::fs;
use std::io::{Read, Write};
use std::rt::Files;

/// The files of the system. A name is a path, and a file that is absent is a fault.
#[derive(Drop)]
pub struct FileDesk<'a, R: Files> {
    rt: &'a R,
    alloc: Global,
    faults: u64,
    last_fault: Option<String>,
    reads: Vec<String>,
    gave: Vec<Given>,
    ghost fits_u64: { faults < 2 ^ 64 },
}

impl<'a, R: Files> FileDesk<'a, R> {
    /// A desk with no fault, which was not asked for anything yet.
    pub fn new(alloc: Global, rt: &'a R) -> FileDesk<'a, R>
        ensures { ⟦<FileDesk<'a, R> as Desk>⟧.seen result ≡ new_desk }
    {
        FileDesk {
            rt,
            alloc,
            faults: 0,
            last_fault: None,
            reads: Vec::new(alloc),
            gave: Vec::new(alloc),
        }
    }

    // Lists this name among those that were asked for, and returns a copy of it. The memory for both is taken first, so
    // that a read is always listed, and a fault counted with its name.
    fn ask(&mut self, name: &str) -> Result<String, AllocError>
        ensures copy { IfOk result (λ copy. string_bytes copy ≡ name.now) }
        ensures ok { OnOk result (⟦<FileDesk<'a, R> as Desk>⟧.seen self.new
            ≡ after_asking (⟦<FileDesk<'a, R> as Desk>⟧.seen self.old) name.now) }
        ensures err { OnErr result (⟦<FileDesk<'a, R> as Desk>⟧.seen self.new
            ≡ ⟦<FileDesk<'a, R> as Desk>⟧.seen self.old) }
        ensures fits_u64 { self.new.faults < 2 ^ 64 }
    {
        let copy = String::from_str(self.alloc, name)?;
        let asked = String::from_str(self.alloc, name)?;
        self.reads.push(asked)?;
        Ok(copy)
    }

    // Notes what a file gave.
    fn note(&mut self, given: Given) -> Result<(), AllocError>
        ensures ok { OnOk result (⟦<FileDesk<'a, R> as Desk>⟧.seen self.new
            ≡ after_noting (⟦<FileDesk<'a, R> as Desk>⟧.seen self.old) (result_of given)) }
        ensures err { OnErr result (⟦<FileDesk<'a, R> as Desk>⟧.seen self.new
            ≡ ⟦<FileDesk<'a, R> as Desk>⟧.seen self.old) }
        ensures fits_u64 { self.new.faults < 2 ^ 64 }
    {
        self.gave.push(given)?;
        Ok(())
    }

    // Notes the first bytes of a file that is too long.
    fn note_long(&mut self, first: History) -> DeskError
        ensures noted { IsNotedLong (change (⟦<FileDesk<'a, R> as Desk>⟧.seen) self.old self.new) first.bytes result }
        ensures fits_u64 { self.new.faults < 2 ^ 64 }
    {
        match self.note(Given::TooLong(first)) {
            Ok(()) => DeskError::TooLong,
            Err(_) => DeskError::OutOfMemory,
        }
    }

    // Counts a fault at this name.
    fn fail(&mut self, name: String) -> DeskError
        ensures failed { result ≡ DeskError.Failed }
        ensures counted { ⟦<FileDesk<'a, R> as Desk>⟧.seen self.new
            ≡ after_fault (⟦<FileDesk<'a, R> as Desk>⟧.seen self.old) (string_bytes name) }
        ensures fits_u64 { self.new.faults < 2 ^ 64 }
    {
        self.faults = self.faults.saturating_add(1);
        self.last_fault = Some(name);
        DeskError::Failed
    }
}

// How many bytes are asked of a file at once.
const ASKED: usize = 16_384;

// How many bytes are filled at once: short pieces are filled by vectors, and long ones are not.
const FILLED: usize = 2_048;

// How many bytes are asked of the file: as many as there is memory for, or a whole piece where there is none left.
fn room_of(bytes: &Vec<u8>) -> usize
    ensures some { 0 < result }
{
    match bytes.capacity().saturating_sub(bytes.len()) {
        0 => ASKED,
        room => room.min(ASKED),
    }
}

// Makes room for so many bytes behind those that were read.
fn make_room(bytes: &mut Vec<u8>, count: usize) -> Result<(), AllocError>
    ensures { OnOk result (vec_len bytes.new ≡ vec_len bytes.old + count) }
{
    bytes.reserve(count)?;
    let mut left = count;
    while left > 0 {
        let piece = left.min(FILLED);
        bytes.extend_from_slice(&[0; FILLED][..piece])?;
        left -= piece;
    }
    Ok(())
}

// All bytes that a file gives, or the first of them, one more than `max`. None where the file fails.
fn read_up_to<F: Read>(
    alloc: Global,
    file: &mut F,
    max: u64,
) -> Result<Option<Vec<u8>>, AllocError> {
    let mut bytes = Vec::new(alloc);
    let mut filled = 0;
    while filled as u64 <= max {
        let wanted = (max - filled as u64)
            .saturating_add(1)
            .min(room_of(&bytes) as u64) as usize;
        make_room(&mut bytes, wanted)?;
        let Ok(count) = file.read(&mut bytes[filled..]) else {
            return Ok(None);
        };
        filled += count;
        bytes.truncate(filled);
        if count == 0 {
            break;
        }
    }
    Ok(Some(bytes))
}

// How many bytes are fed at once.
const PIECE: usize = 65_536;

// Feeds all bytes that a file gives, if they are at most `max`, and returns what it gave, which may be a piece more.
// None where the file fails.
fn feed_up_to<I: Read, F: Feed>(
    alloc: Global,
    file: &mut I,
    max: u64,
    fed: &mut F,
) -> Result<Option<Given>, AllocError>
    requires nothing_fed { F.feeds fed.old [] fed.old }
    ensures fed { IfOk result (λ found. IfSome found (λ given. FeedsGiven F.feeds fed.old fed.new (result_of given))) }
    ensures given { IfOk result (λ found. IfSome found (λ given. Agrees None max (result_of given))) }
    ensures prefix { FeedsPrefix F.feeds fed.old fed.new None max }
{
    let mut given = History::new();
    let mut piece = Vec::new(alloc);
    make_room(&mut piece, PIECE)?;
    let mut left = max;
    loop {
        let Ok(count) = file.read(&mut piece[..]) else {
            return Ok(None);
        };
        if count == 0 {
            return Ok(Some(Given::Bytes(given)));
        }
        let (bytes, _) = piece.as_slice().split_at(count);
        given.note(bytes);
        if count as u64 > left {
            return Ok(Some(Given::TooLong(given)));
        }
        fed.feed(bytes);
        left -= count as u64;
    }
}

impl<R: Files> Desk for FileDesk<'_, R> {
    ghost seen = { λ d. record {
      faults = d.faults;
      last_fault = option_map string_bytes d.last_fault;
      reads = map string_bytes d.reads.items;
      gave = results_of d.gave.items;
      contents = λ name. None;
    } };

    fn read(&mut self, name: &str, max: u64) -> Result<Vec<u8>, DeskError> {
        let Ok(asked) = self.ask(name) else {
            return Err(DeskError::OutOfMemory);
        };
        let Ok(mut file) = fs::open(self.rt, name) else {
            return Err(self.fail(asked));
        };
        let Ok(found) = read_up_to(self.alloc, &mut file, max) else {
            return Err(DeskError::OutOfMemory);
        };
        let Some(bytes) = found else {
            return Err(self.fail(asked));
        };
        let history = History::of(&bytes);
        if bytes.len() as u64 > max {
            return Err(self.note_long(history));
        }
        match self.note(Given::Bytes(history)) {
            Ok(()) => Ok(bytes),
            Err(_) => Err(DeskError::OutOfMemory),
        }
    }

    fn read_pieces<F: Feed>(&mut self, name: &str, max: u64, fed: &mut F) -> Result<(), DeskError> {
        let Ok(asked) = self.ask(name) else {
            return Err(DeskError::OutOfMemory);
        };
        let Ok(mut file) = fs::open(self.rt, name) else {
            return Err(self.fail(asked));
        };
        let Ok(found) = feed_up_to(self.alloc, &mut file, max, fed) else {
            return Err(DeskError::OutOfMemory);
        };
        match found {
            None => Err(self.fail(asked)),
            Some(Given::TooLong(first)) => Err(self.note_long(first)),
            Some(given) => match self.note(given) {
                Ok(()) => Ok(()),
                Err(_) => Err(DeskError::OutOfMemory),
            },
        }
    }
}

/// The standard output.
#[derive(Drop)]
pub struct StdSink<'a, R: Print> {
    rt: &'a R,
    faults: u64,
    took: History,
    ghost fits_u64: { faults < 2 ^ 64 },
}

impl<'a, R: Print> StdSink<'a, R> {
    /// A sink with no fault.
    pub fn new(rt: &'a R) -> StdSink<'a, R>
        ensures { ⟦<StdSink<'a, R> as Sink>⟧.seen result ≡ new_sink_seen }
    {
        StdSink {
            rt,
            faults: 0,
            took: History::new(),
        }
    }
}

impl<R: Print> Sink for StdSink<'_, R> {
    ghost seen = { λ s. record { faults = s.faults; took = s.took.bytes; contents = None } };

    fn write(&mut self, piece: &[u8]) -> Result<usize, SinkError> {
        match self.rt.write_some(piece) {
            Ok(count) if count > 0 || piece.is_empty() => {
                self.took.note(piece.split_at(count).0);
                Ok(count)
            }
            _ => {
                self.faults = self.faults.saturating_add(1);
                Err(SinkError::Failed)
            }
        }
    }
}

/// A file of the system. It is made, or emptied, at the first write of a piece that isn't empty.
#[derive(Drop)]
pub struct FileSink<'a, R: Files> {
    rt: &'a R,
    name: String,
    file: Option<R::File>,
    faults: u64,
    took: History,
    ghost fits_u64: { faults < 2 ^ 64 },
}

impl<'a, R: Files> FileSink<'a, R> {
    /// A sink with no fault, for the file of this name. No file is made yet.
    pub fn new(rt: &'a R, name: String) -> FileSink<'a, R>
        ensures { ⟦<FileSink<'a, R> as Sink>⟧.seen result ≡ new_sink_seen }
    {
        FileSink {
            rt,
            name,
            file: None,
            faults: 0,
            took: History::new(),
        }
    }

    // Writes some of the piece, and makes the file where there is none yet.
    fn write_some(&mut self, piece: &[u8]) -> Option<usize>
        ensures within { IfSome result (λ count. count ≤ length piece.now) }
        ensures faults { self.new.faults ≡ self.old.faults }
        ensures took { self.new.took ≡ self.old.took }
    {
        if self.file.is_none() {
            self.file = fs::create(self.rt, self.name.as_str()).ok();
        }
        let file = self.file.as_mut()?;
        file.write(piece).ok()
    }
}

impl<R: Files> Sink for FileSink<'_, R> {
    ghost seen = { λ s. record { faults = s.faults; took = s.took.bytes; contents = None } };

    fn write(&mut self, piece: &[u8]) -> Result<usize, SinkError> {
        if piece.is_empty() {
            return Ok(0);
        }
        match self.write_some(piece) {
            Some(count) if count > 0 => {
                self.took.note(piece.split_at(count).0);
                Ok(count)
            }
            _ => {
                self.faults = self.faults.saturating_add(1);
                Err(SinkError::Failed)
            }
        }
    }
}
