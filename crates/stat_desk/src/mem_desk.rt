//! The desk in memory.
ghost use Rattle.std.specs.Prelude.{◌≡◌, ◌<◌, ◌^◌, ◌∷◌, ◌++◌, [], ℕ, Vec, None, OnOk, OnErr, IfErr, IfOk, IsErrOf, option_map, string_bytes};
ghost use Rattle.std.specs.Borrow.{Bor};
ghost use Rattle.std.specs.declared.alloc.Global.{Global};
ghost use Rattle.stat_desk.specs.Change.{change};
ghost use Rattle.stat_desk.specs.Desk.{Bytes, HasGiven, HasNotRead, IsLonger, IsWhole};
ghost use Rattle.stat_desk.specs.Feeding.{FeedsAs, FeedsFile, FeedsPrefix};
ghost use Rattle.stat_desk.specs.MemDesk.{Gives, after_read, bytes_in, desk_seen, entries_of, file_of, read_answer};

use crate::given::Given;
use crate::history::History;
use crate::{Desk, DeskError, Feed};
use std::alloc::{AllocError, Global};
use std::marker::Model;

// A name with its bytes.
#[derive(Drop)]
struct StoredFile {
    name: String,
    bytes: Vec<u8>,
}

// How many bytes are fed at once: so few that the lines of most files are cut.
const PIECE: usize = 64;

// Feeds bytes in pieces.
fn feed_pieces<F: Feed>(bytes: &[u8], fed: &mut F)
    requires nothing_fed { F.feeds fed.old [] fed.old }
    ensures { F.feeds fed.old bytes.now fed.new }
{
    let mut count = 0;
    while count < bytes.len() {
        let (_, rest) = bytes.split_at(count);
        let (piece, _) = rest.split_at(rest.len().min(PIECE));
        fed.feed(piece);
        count += piece.len();
    }
}

/// Files in memory. Its contents are what was put. Its reads fail where they are told to, and at names that were not
/// put. A contract sees its files, and how its reads have gone.
#[derive(Drop)]
pub struct MemDesk {
    alloc: Global,
    files: Vec<StoredFile>,
    failing: Vec<u64>,
    reads: Vec<String>,
    gave: Vec<Given>,
    faults: u64,
    last_fault: Option<String>,
}

impl Model for MemDesk {
    ghost use Rattle.std.specs.Prelude.{◌<◌, ◌^◌, map, option_map, string_bytes};
    ghost use Rattle.stat_desk.specs.Given.{results_of};
    ghost use Rattle.stat_desk.specs.MemDesk.{MemDeskView};

    ghost Value = { MemDeskView };

    ghost use Rattle.stat_desk.specs.MemDesk.{entries_of};

    ghost view = { λ d. record {
      files = entries_of d.files.items;
      failing = d.failing.items;
      reads = map string_bytes d.reads.items;
      gave = results_of d.gave.items;
      faults = d.faults;
      last_fault = option_map string_bytes d.last_fault;
    } };

    ghost invariant = { λ d. d.faults < 2 ^ 64 };
}

impl MemDesk {
    /// A desk with no file, no read and no fault.
    pub fn new(alloc: Global) -> MemDesk
        ensures { result ≡ record { files = []; failing = []; reads = []; gave = []; faults = 0; last_fault = None } }
    {
        MemDesk {
            alloc,
            files: Vec::new(alloc),
            failing: Vec::new(alloc),
            reads: Vec::new(alloc),
            gave: Vec::new(alloc),
            faults: 0,
            last_fault: None,
        }
    }

    /// Sets the bytes of a name, in place of those that it had.
    pub fn put(&mut self, name: String, bytes: Vec<u8>) -> Result<(), AllocError>
        ensures ok { OnOk result
            (self.new ≡ record self.old { files = (string_bytes name, bytes.items) ∷ self.old.files }) }
        ensures err { OnErr result (self.new ≡ self.old) }
    {
        self.files.insert(0, StoredFile { name, bytes })?;
        Ok(())
    }

    /// Makes the read of this number fail. Reads are numbered from 1.
    pub fn fail_at(&mut self, call: u64) -> Result<(), AllocError>
        ensures ok { OnOk result (self.new ≡ record self.old { failing = self.old.failing ++ call ∷ [] }) }
        ensures err { OnErr result (self.new ≡ self.old) }
    {
        self.failing.push(call)?;
        Ok(())
    }

    // What the next read returns.
    fn answer(&self, name: &str, max: u64) -> Result<Vec<u8>, DeskError>
        ensures exactly { Gives (read_answer self.now name.now max) result }
        ensures whole { IfOk result (λ bytes. IsWhole (file_of self.now.files name.now) max bytes.items) }
        ensures too_long { IsErrOf result DeskError.TooLong → IsLonger (file_of self.now.files name.now) max
            (bytes_in (file_of self.now.files name.now)) }
    {
        if self.failing.contains(&(self.reads.len() as u64 + 1)) {
            return Err(DeskError::Failed);
        }
        let Some(bytes) = bytes_of(self.files.as_slice(), name) else {
            return Err(DeskError::Failed);
        };
        if bytes.len() as u64 > max {
            return Err(DeskError::TooLong);
        }
        let Ok(copy) = bytes.to_vec(self.alloc) else {
            return Err(DeskError::OutOfMemory);
        };
        Ok(copy)
    }

    // The bytes of a name, for contracts alone.
    fn history_of(&self, name: &str) -> History
        ensures { result.bytes ≡ bytes_in (file_of self.now.files name.now) }
    {
        match bytes_of(self.files.as_slice(), name) {
            Some(bytes) => History::of(bytes),
            None => History::new(),
        }
    }
}

// The bytes of a name among files.
fn bytes_of<'a>(files: &'a [StoredFile], name: &str) -> Option<&'a Vec<u8>>
    ensures { option_map (λ (bytes : Bor (Vec ℕ Global)). bytes.now.items) result
        ≡ file_of (entries_of files.now) name.now }
{
    for file in files {
        if file.name.as_str() == name {
            return Some(&file.bytes);
        }
    }
    None
}

impl Desk for MemDesk {
    ghost seen = { desk_seen };

    // `exactly` says what each read returns, and `state` what the desk is afterwards. A read that runs out of memory
    // leaves the desk unchanged, and has no number.
    fn read(&mut self, name: &str, max: u64) -> Result<Vec<u8>, DeskError>
        ensures ok { IfOk result
            (λ bytes. HasGiven (change desk_seen self.old self.new) name.now max (Bytes bytes.items)) }
        ensures err { IfErr result (HasNotRead (change desk_seen self.old self.new) name.now max) }
        ensures fits_u64 { self.new.faults < 2 ^ 64 }
        ensures state { self.new ≡ after_read self.old name.now max result }
        ensures exactly { Gives (read_answer self.old name.now max) result }
    {
        let (Ok(asked), Ok(at_fault)) = (
            String::from_str(self.alloc, name),
            String::from_str(self.alloc, name),
        ) else {
            return Err(DeskError::OutOfMemory);
        };
        match self.answer(name, max) {
            Err(DeskError::OutOfMemory) => Err(DeskError::OutOfMemory),
            answer => {
                if self.reads.push(asked).is_err() {
                    return Err(DeskError::OutOfMemory);
                }
                let noted = match &answer {
                    Ok(bytes) => self.gave.push(Given::Bytes(History::of(bytes))),
                    Err(DeskError::TooLong) => {
                        let first = self.history_of(name);
                        self.gave.push(Given::TooLong(first))
                    }
                    Err(_) => Ok(()),
                };
                if noted.is_err() {
                    self.reads.pop();
                    return Err(DeskError::OutOfMemory);
                }
                if matches!(answer, Err(DeskError::Failed)) {
                    self.faults = self.faults.saturating_add(1);
                    self.last_fault = Some(at_fault);
                }
                answer
            }
        }
    }

    // `exactly` says what each read feeds or returns, and `state` what the desk is afterwards.
    fn read_pieces<F: Feed>(&mut self, name: &str, max: u64, fed: &mut F) -> Result<(), DeskError>
        requires nothing_fed { F.feeds fed.old [] fed.old }
        ensures ok { OnOk result
            (FeedsFile F.feeds fed.old fed.new (change desk_seen self.old self.new) name.now max) }
        ensures err { IfErr result (HasNotRead (change desk_seen self.old self.new) name.now max) }
        ensures prefix { OnErr result (FeedsPrefix F.feeds fed.old fed.new (file_of self.old.files name.now) max) }
        ensures fits_u64 { self.new.faults < 2 ^ 64 }
        ensures state { self.new ≡ after_read self.old name.now max result }
        ensures exactly { FeedsAs F.feeds fed.old fed.new (read_answer self.old name.now max) result }
    {
        match self.read(name, max) {
            Ok(bytes) => {
                feed_pieces(bytes.as_slice(), fed);
                Ok(())
            }
            Err(error) => Err(error),
        }
    }
}
