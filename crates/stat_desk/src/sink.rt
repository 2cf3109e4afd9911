//! A sink takes bytes, perhaps fewer than it is offered.
ghost use Rattle.std.specs.Prelude.{◌≡◌, ◌<◌, ◌^◌, [], IfOk, OnErr, OnOk};
ghost use Rattle.stat_desk.specs.Change.{change};
ghost use Rattle.stat_desk.specs.Sink.{HasNotTaken, SinkSeen, TookFirst, TookPrefix, TookWhole};

/// Why a write took nothing.
#[derive(Clone, Copy, Debug, PartialEq, Eq)]
pub enum SinkError {
    /// The outside failed, or took nothing of a piece that is not empty. The sink counted it.
    Failed,
}

/// Takes bytes in order, and counts its faults.
pub trait Sink {
    /// What a contract sees: its faults, the bytes that it took, and those that it holds.
    ghost seen: { Self → SinkSeen };

    /// Takes bytes from the front of the piece, at least one where there is one, and says how many.
    /// Answers `Failed` only where the sink counted a fault, and then it took nothing.
    fn write(&mut self, piece: &[u8]) -> Result<usize, SinkError>
        ensures ok { IfOk result (TookFirst (change seen self.old self.new) piece.now) }
        ensures err { OnErr result (HasNotTaken (change seen self.old self.new)) }
        ensures fits_u64 { (seen self.new).faults < 2 ^ 64 };
}

/// Offers what is left of the bytes until all is taken, or a write fails. Takes no memory, and offers
/// nothing where there are no bytes.
pub fn write_all_to<S: Sink>(sink: &mut S, bytes: &[u8]) -> Result<(), SinkError>
    ensures ok { OnOk result (TookWhole (change S.seen sink.old sink.new) bytes.now) }
    ensures err { OnErr result (TookPrefix (change S.seen sink.old sink.new) bytes.now) }
    ensures nothing { bytes.now ≡ [] → sink.new ≡ sink.old }
{
    let mut taken = 0;
    while taken < bytes.len() {
        taken += sink.write(bytes.split_at(taken).1)?;
    }
    Ok(())
}
