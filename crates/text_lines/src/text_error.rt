//! Why a text of a job was refused.

use std::alloc::{AllocError, AllocFailed};

/// What is wrong with a text.
#[derive(Debug, PartialEq, Eq, Clone, Copy)]
pub enum Reason {
    /// Bytes of a topology are not a token, or a statement begins with one that is not a name.
    BadToken,
    /// The parent of a statement has begun a statement before.
    SecondLine,
    /// No `=>` comes after a parent.
    NoArrow,
    /// No child comes after `=>`.
    NoChild,
    /// A child has a parent already.
    SecondParent,
    /// A statement does not end with `;`.
    NoSemicolon,
    /// Every node has a parent, or there is no node.
    NoRoot,
    /// Two nodes have no parent.
    TwoRoots,
    /// A node cannot be reached from the root.
    Unreached,
    /// A line of samples or values is not UTF-8.
    NotUtf8,
    /// A line does not have the words that such a line must have.
    BadDirective,
    /// The name isn't a daemon's.
    NotADaemon,
    /// A word is not a valid set of ranks.
    BadRanks,
    /// A rank is placed already.
    PlacedTwice,
    /// A word is not a time from 0 to 65,535.
    BadTime,
    /// A rank of a sample or of a value is placed on no daemon, or on none yet.
    Unplaced,
    /// The path of a sample is not a valid path.
    BadPath,
    /// A daemon has no rank.
    DaemonWithoutRank,
    /// A word is not a number, or the number is out of its range.
    BadNumber,
    /// A stream is defined a second time.
    SecondStream,
    /// The name isn't that of a node.
    UnknownNode,
    /// The front end is to be lost.
    LosesFront,
    /// A node is to be lost a second time.
    SecondLoss,
    /// A script has no stream.
    NoStream,
    /// A rank has a value by an earlier line.
    ValueTwice,
    /// A word is not a value from -1,000,000,000,000 to 1,000,000,000,000.
    BadValue,
}

/// What a text has too much of.
#[derive(Debug, PartialEq, Eq, Clone, Copy)]
pub enum Quantity {
    /// The bytes of a text.
    Bytes,
    /// The nodes of a topology.
    Nodes,
    /// The links from the root to a node.
    Depth,
    /// A rank.
    Ranks,
    /// The lines that give a sample.
    Lines,
    /// The distinct prefixes of a wave's paths.
    Prefixes,
    /// The number of a stream.
    Streams,
    /// The waves of a stream.
    Waves,
    /// The lines that lose a node.
    Faults,
}

/// Why a text was refused. Lines count from 1, and line 0 stands for the whole text.
#[derive(Debug, PartialEq, Eq, Clone, Copy)]
pub enum TextError {
    /// Something is wrong on a line.
    Bad {
        line: u64,
        reason: Reason,
    },
    /// On a line there is more of something than the limit.
    Over {
        line: u64,
        what: Quantity,
        limit: u64,
    },
    /// Out of memory; the text may contain an error.
    OutOfMemory,
}

impl TextError {
    ghost use Rattle.std.specs.Prelude.{◌≡◌};
    ghost use Rattle.text_lines.specs.declared.text_error.TextError.TheVariants.{Bad, Over};

    /// Something is wrong on a line.
    pub fn bad(line: u64, reason: Reason) -> TextError
        ensures { result ≡ Bad line reason }
    {
        TextError::Bad { line, reason }
    }

    /// On a line there is more of something than this limit.
    pub fn over(line: u64, what: Quantity, limit: u32) -> TextError
        ensures { result ≡ Over line what limit }
    {
        TextError::Over {
            line,
            what,
            limit: u64::from(limit),
        }
    }
}

impl From<AllocError> for TextError {
    ghost use Rattle.std.specs.Prelude.{◌≡◌};
    ghost use Rattle.text_lines.specs.declared.text_error.TextError.TheVariants.{OutOfMemory};

    ghost from_gives = { λ _ e. e ≡ OutOfMemory };

    fn from(_: AllocError) -> Self {
        TextError::OutOfMemory
    }
}

impl<T: Drop> From<AllocFailed<T>> for TextError {
    ghost use Rattle.std.specs.Prelude.{◌≡◌};
    ghost use Rattle.text_lines.specs.declared.text_error.TextError.TheVariants.{OutOfMemory};

    ghost from_gives = { λ _ e. e ≡ OutOfMemory };

    fn from(_: AllocFailed<T>) -> Self {
        TextError::OutOfMemory
    }
}
