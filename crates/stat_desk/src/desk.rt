//! A desk gives files by name, whole or in pieces.
ghost use Rattle.std.specs.Prelude.{◌<◌, ◌^◌, [], ℕ, List, IfErr, IfOk, OnErr, OnOk};
ghost use Rattle.stat_desk.specs.Change.{change};
ghost use Rattle.stat_desk.specs.Desk.{DeskSeen, HasGiven, HasNotRead, Bytes};
ghost use Rattle.stat_desk.specs.Feeding.{FeedsFile, FeedsNext, FeedsPrefix, HasRoomFor};

/// Why a read returned no bytes.
#[derive(Clone, Copy, Debug, PartialEq, Eq)]
pub enum DeskError {
    /// The outside failed, as for a file that is not there. The desk counted it.
    Failed,
    /// The file has more bytes than the caller allows.
    TooLong,
    /// Out of memory.
    OutOfMemory,
}

/// Takes bytes in pieces, in order.
pub trait Feed {
    /// Feeding these bytes, however they are cut, turns one value into another.
    ghost feeds: { Self → List ℕ → Self → Type 0 };

    /// Takes the next piece. A value that runs out of memory, or refuses what it was fed, takes the later pieces all
    /// the same, and says so when it is asked what it read.
    fn feed(&mut self, piece: &[u8])
        requires { HasRoomFor feeds self.old piece.now }
        ensures { FeedsNext feeds self.old piece.now self.new };
}

/// Gives files by name, and counts its faults.
pub trait Desk {
    /// What a contract sees: its faults, the names that were asked for, what the files gave, and their contents.
    ghost seen: { Self → DeskSeen };

    /// Returns all bytes of the file of that name, if they are at most `max`. A read that ends without memory may have
    /// asked for the file or not. No read changes the contents of a file.
    ///
    /// # Errors
    ///
    /// `Failed` only where the desk counted a fault at this name, `TooLong` only where the file gave more than `max`
    /// bytes.
    fn read(&mut self, name: &str, max: u64) -> Result<Vec<u8>, DeskError>
        ensures ok { IfOk result
            (λ bytes. HasGiven (change seen self.old self.new) name.now max (Bytes bytes.items)) }
        ensures err { IfErr result (HasNotRead (change seen self.old self.new) name.now max) }
        ensures fits_u64 { (seen self.new).faults < 2 ^ 64 };

    /// Feeds all bytes of the file of that name, if they are at most `max`, piece by piece to a value that was fed
    /// nothing. After an error it was fed a prefix of the file.
    ///
    /// # Errors
    ///
    /// Those of `read`.
    fn read_pieces<F: Feed>(&mut self, name: &str, max: u64, fed: &mut F) -> Result<(), DeskError>
        requires nothing_fed { F.feeds fed.old [] fed.old }
        ensures ok { OnOk result
            (FeedsFile F.feeds fed.old fed.new (change seen self.old self.new) name.now max) }
        ensures err { IfErr result (HasNotRead (change seen self.old self.new) name.now max) }
        ensures prefix { OnErr result
            (FeedsPrefix F.feeds fed.old fed.new ((seen self.old).contents name.now) max) }
        ensures fits_u64 { (seen self.new).faults < 2 ^ 64 };
}
