//! What the words ask for, and what can be wrong with them.
ghost use Rattle.std.specs.Prelude.{◌≡◌};
ghost use Rattle.stat_words.specs.Modes.{word_of};

use rank_sums::Fold;
use std::fmt;
use thiserror::Error;
use tree_view::ViewBy;

/// An option. Values are tested in this order.
#[derive(Clone, Copy, Debug, PartialEq, Eq)]
pub enum Opt {
    /// `--topology`, the file of the overlay's nodes.
    Topology,
    /// `--samples`, the file of the ranks and of the call paths that they were seen in.
    Samples,
    /// `--script`, the file of the streams and waves.
    Script,
    /// `--journal-in`, the file of the journal that is replayed.
    JournalIn,
    /// `--capture`, a file of frames.
    Capture,
    /// `--workers`, the number of threads, 1 to 32.
    Workers,
    /// `--seed`, the number from which chance is drawn, 0 to 18446744073709551615.
    Seed,
    /// `--size`, the size of a generated job, 1 to 256.
    Size,
    /// `--report`, what is written: `text`, `json` or, of a run, `frames`.
    Report,
    /// `--commands`, how many commands are sent down to the daemons, 1 to 1,000.
    Commands,
    /// `--values`, the file of the ranks' numbers.
    Values,
    /// `--fold`, what is made of the numbers: `sum`, `min`, `max` or `count`.
    Fold,
    /// `--by`, by what a tree is viewed: `ranks`, `frame`, `fold` or `reps`.
    By,
    /// `--arg`, the argument of a view: ranks, a frame, or how many representatives, 1 to 1,000.
    Arg,
}

impl Opt {
    /// The option's word, without its two dashes.
    pub fn word(self) -> &'static str
        ensures { result.now ≡ word_of self }
    {
        match self {
            Opt::Topology => "topology",
            Opt::Samples => "samples",
            Opt::Script => "script",
            Opt::JournalIn => "journal-in",
            Opt::Capture => "capture",
            Opt::Workers => "workers",
            Opt::Seed => "seed",
            Opt::Size => "size",
            Opt::Report => "report",
            Opt::Commands => "commands",
            Opt::Values => "values",
            Opt::Fold => "fold",
            Opt::By => "by",
            Opt::Arg => "arg",
        }
    }
}

impl fmt::Display for Opt {
    fn fmt<W: fmt::Write>(&self, f: &mut fmt::Formatter<W>) -> fmt::Result {
        f.write_str(self.word())
    }
}

/// What is wrong with the words.
#[derive(Clone, Copy, Debug, PartialEq, Eq, Error)]
pub enum WordFault {
    /// There are no words.
    #[error("no mode")]
    NoMode,
    /// The first word is not a mode's.
    #[error("unknown mode")]
    UnknownMode,
    /// An option is unknown, repeated or missing, a value is missing, or there is a word that is no option's.
    #[error("options")]
    Options,
    /// An option's value is not one that the option can have.
    #[error("value of --{0}")]
    Value(Opt),
}

/// How a report is written.
#[derive(Clone, Copy, Debug, PartialEq, Eq)]
pub enum ReportForm {
    /// Lines of text.
    Text,
    /// One JSON value.
    Json,
}

/// What is written of a run.
#[derive(Clone, Copy, Debug, PartialEq, Eq)]
pub enum RunReport {
    /// The report of its releases, in a form.
    Releases(ReportForm),
    /// The frames that its nodes received.
    Frames,
}

/// What is written of sums.
#[derive(Clone, Copy, Debug, PartialEq, Eq)]
pub struct SumsReport<'a> {
    /// How the report is written.
    pub form: ReportForm,
    /// The file of the ranks' numbers. Its name is not empty and does not begin with `-`.
    pub values: &'a str,
    /// What is made of the numbers.
    pub fold: Fold,
}

/// What is written of a view.
#[derive(Clone, Copy, Debug, PartialEq, Eq)]
pub struct ViewReport<'a> {
    /// How the report is written.
    pub form: ReportForm,
    /// By what the trees are viewed.
    pub by: ViewBy,
    /// The argument of the view, as it was given: `View::read` takes it.
    pub argument: &'a str,
}

/// The names of the three files. None is empty or begins with `-`.
#[derive(Clone, Copy, Debug, PartialEq, Eq)]
pub struct Files<'a> {
    /// The file of the overlay's nodes.
    pub topology: &'a str,
    /// The file of the ranks and of the call paths that they were seen in.
    pub samples: &'a str,
    /// The file of the streams and waves.
    pub script: &'a str,
}

/// What the words ask for.
#[derive(Clone, Copy, Debug, PartialEq, Eq)]
pub enum Command<'a> {
    /// A run; `workers` is 1 to 32.
    Run {
        files: Files<'a>,
        workers: u8,
        report: RunReport,
    },
    /// A run in an order that is drawn from a seed.
    Sim {
        files: Files<'a>,
        seed: u64,
        report: RunReport,
    },
    /// The run that a journal tells of.
    Replay {
        files: Files<'a>,
        journal: &'a str,
        report: RunReport,
    },
    /// The report computed from the samples at once, with no overlay; `workers` is 1 to 32.
    Direct {
        files: Files<'a>,
        workers: u8,
        form: ReportForm,
    },
    /// A generated job; `size` is 1 to 256.
    Gen {
        size: u16,
        seed: u64,
    },
    /// Commands from the front end down to the daemons, in an order that is drawn from a seed; `commands` is 1 to
    /// 1,000.
    Cast {
        files: Files<'a>,
        seed: u64,
        commands: u32,
    },
    /// What the numbers of the ranks come to, at each release of a run in an order that is drawn from a seed.
    Sums {
        files: Files<'a>,
        seed: u64,
        report: SumsReport<'a>,
    },
    /// A view of each release of a run in an order that is drawn from a seed.
    View {
        files: Files<'a>,
        seed: u64,
        report: ViewReport<'a>,
    },
    /// The frames of a capture, printed.
    Frames {
        capture: &'a str,
    },
}

/// Why words are not read.
#[derive(Clone, Copy, Debug, PartialEq, Eq, Error)]
pub enum WordsError {
    /// The words are bad.
    #[error(transparent)]
    Fault(WordFault),
    /// Out of memory.
    #[error("out of memory")]
    OutOfMemory,
}
