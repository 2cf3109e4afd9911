//! The answers of the top call.
ghost use Rattle.std.specs.Prelude.{◌≡◌};
ghost use Rattle.job_files.specs.Status.{number_of};

use overlay_event::{Event, Journal};
use packet_frame::FrameReason;
use stat_words::WordFault;
use std::fmt;
use text_lines::{Quantity, Reason};

/// A file that the words name.
#[derive(Clone, Copy, Debug, PartialEq, Eq)]
pub enum FileRole {
    /// Which nodes there are.
    Topology,
    /// Where the ranks are, and the paths that they were seen in.
    Samples,
    /// Which streams and waves there are.
    Script,
    /// Which events happen, in order.
    Journal,
    /// Frames, one after another.
    Capture,
    /// Which numbers the ranks have.
    Values,
}

/// What is written.
#[derive(Clone, Copy, Debug, PartialEq, Eq)]
pub enum Target {
    /// The report.
    Report,
    /// The journal.
    Journal,
}

/// How a call ended.
#[derive(Clone, Copy, Debug, PartialEq, Eq)]
pub enum Status {
    /// All was read, done and written.
    Done,
    /// The words aren't those of a mode.
    BadWords(WordFault),
    /// A file could not be read.
    DeskFault(FileRole),
    /// The first error of a file, and its line, from 1. Line 0 stands for the whole file.
    BadInput {
        file: FileRole,
        line: u64,
        reason: Reason,
    },
    /// On this line, from 1, a file has more of something than the limit. Line 0 stands for the whole file.
    OverLimit {
        file: FileRole,
        line: u64,
        what: Quantity,
        limit: u64,
    },
    /// The report or the journal could not be written whole.
    SinkFault(Target),
    /// Out of memory.
    OutOfMemory,
    /// The line of this number, from 0, of the journal to be replayed is bad, or its event may not come after those of
    /// the lines before. It is the first such line.
    BadJournal(u64),
    /// The journal to be replayed ends where this event, and perhaps others, may still come. The report was written.
    Unfinished(Event),
    /// The capture is not a sequence of whole frames: the first field behind its whole frames that breaks its rule, or
    /// in which the capture ends, by the offset of that field's first byte.
    BadFrames {
        at: u64,
        reason: FrameReason,
    },
}

impl Status {
    /// The number with which the program ends.
    pub fn number(self) -> u8
        ensures { result ≡ number_of self }
    {
        match self {
            Status::Done => 0,
            Status::BadWords(_) => 2,
            Status::DeskFault(_) => 3,
            Status::BadInput { .. } => 4,
            Status::OverLimit { .. } => 5,
            Status::SinkFault(_) => 6,
            Status::OutOfMemory => 7,
            Status::BadJournal(_) => 8,
            Status::Unfinished(_) => 9,
            Status::BadFrames { .. } => 10,
        }
    }
}

impl fmt::Display for FileRole {
    fn fmt<W: fmt::Write>(&self, f: &mut fmt::Formatter<W>) -> fmt::Result {
        f.write_str(match self {
            FileRole::Topology => "topology",
            FileRole::Samples => "samples",
            FileRole::Script => "script",
            FileRole::Journal => "journal",
            FileRole::Capture => "capture",
            FileRole::Values => "values",
        })
    }
}

impl fmt::Display for Target {
    fn fmt<W: fmt::Write>(&self, f: &mut fmt::Formatter<W>) -> fmt::Result {
        f.write_str(match self {
            Target::Report => "report",
            Target::Journal => "journal",
        })
    }
}

impl fmt::Display for Status {
    fn fmt<W: fmt::Write>(&self, f: &mut fmt::Formatter<W>) -> fmt::Result {
        match self {
            Status::Done => write!(f, "done"),
            Status::BadWords(fault) => write!(f, "bad words: {fault}"),
            Status::DeskFault(role) => write!(f, "cannot read {role}"),
            Status::BadInput { file, line, reason } => write!(f, "{file} line {line}: {reason:?}"),
            Status::OverLimit {
                file,
                line,
                what,
                limit,
            } => write!(f, "{file} line {line}: {what:?} over {limit}"),
            Status::SinkFault(target) => write!(f, "cannot write {target}"),
            Status::OutOfMemory => write!(f, "out of memory"),
            Status::BadJournal(number) => write!(f, "journal event {number} refused"),
            Status::Unfinished(event) => write_unfinished(*event, f),
            Status::BadFrames { at, reason } => write!(f, "capture at {at}: {reason:?}"),
        }
    }
}

// The text of a journal that ends before an event.
fn write_unfinished<W: fmt::Write>(event: Event, f: &mut fmt::Formatter<W>) -> fmt::Result {
    f.write_str("journal ends before ")?;
    match event {
        Event::Sample { node, stream, wave } => write!(f, "sample {node} {stream} {wave}"),
        Event::Recv { node, from } => write!(f, "recv {node} {from}"),
        Event::Tick { node } => write!(f, "tick {node}"),
        Event::Lose { node } => write!(f, "lose {node}"),
    }
}

/// What a call leaves.
#[derive(Drop)]
pub struct Outcome {
    /// How the call ended.
    pub status: Status,
    /// The events of the run, or of the journal that was replayed; none where nothing was run.
    pub journal: Journal,
}
