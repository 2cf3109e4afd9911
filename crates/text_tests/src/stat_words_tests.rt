//! Which words are read, and as what.
use stat_words::{
    Command, Files, Opt, ReportForm, RunReport, ViewReport, WordFault, WordsError, read_words,
};
use std::alloc::Global;
use std::process::Abort;
use tree_view::ViewBy;

const FILES: Files<'static> = Files {
    topology: "t",
    samples: "s",
    script: "c",
};

const TEXT: RunReport = RunReport::Releases(ReportForm::Text);

const JSON: RunReport = RunReport::Releases(ReportForm::Json);

/// Words, and the command that they ask for.
const READ: [(&str, Command<'static>); 20] = [
    (
        "run --topology t --samples s --script c",
        Command::Run {
            files: FILES,
            workers: 4,
            report: TEXT,
        },
    ),
    (
        "run --report=json --script=c --workers=08 --samples s --topology t",
        Command::Run {
            files: FILES,
            workers: 8,
            report: JSON,
        },
    ),
    (
        "run --topology t --samples s --script c --workers 32 --report text",
        Command::Run {
            files: FILES,
            workers: 32,
            report: TEXT,
        },
    ),
    (
        "sim --topology t --samples s --script c",
        Command::Sim {
            files: FILES,
            seed: 0,
            report: TEXT,
        },
    ),
    (
        "sim --seed 18446744073709551615 --topology t --samples s --script c --report json",
        Command::Sim {
            files: FILES,
            seed: 18446744073709551615,
            report: JSON,
        },
    ),
    (
        "sim --topology t --samples s --script c --seed 00000000000000000007",
        Command::Sim {
            files: FILES,
            seed: 7,
            report: TEXT,
        },
    ),
    (
        "replay --topology t --samples s --script c --journal-in j",
        Command::Replay {
            files: FILES,
            journal: "j",
            report: TEXT,
        },
    ),
    (
        "replay --journal-in=j --topology t --samples s --script c --report json",
        Command::Replay {
            files: FILES,
            journal: "j",
            report: JSON,
        },
    ),
    ("gen --size 256", Command::Gen { size: 256, seed: 0 }),
    ("gen --seed=9 --size=1", Command::Gen { size: 1, seed: 9 }),
    ("gen --size 0016", Command::Gen { size: 16, seed: 0 }),
    ("gen --size 2 --seed 0", Command::Gen { size: 2, seed: 0 }),
    (
        "run --topology t --samples s --script c --report frames",
        Command::Run {
            files: FILES,
            workers: 4,
            report: RunReport::Frames,
        },
    ),
    (
        "sim --topology t --samples s --script c --report=frames --seed 1",
        Command::Sim {
            files: FILES,
            seed: 1,
            report: RunReport::Frames,
        },
    ),
    (
        "replay --topology t --samples s --script c --journal-in j --report frames",
        Command::Replay {
            files: FILES,
            journal: "j",
            report: RunReport::Frames,
        },
    ),
    (
        "cast --topology t --samples s --script c --commands 0003 --seed=5",
        Command::Cast {
            files: FILES,
            seed: 5,
            commands: 3,
        },
    ),
    (
        "view --topology t --samples s --script c --by reps --arg 1000",
        Command::View {
            files: FILES,
            seed: 0,
            report: ViewReport {
                form: ReportForm::Text,
                by: ViewBy::Reps,
                argument: "1000",
            },
        },
    ),
    (
        "view --arg=-x --by=fold --report json --topology t --samples s --script c --seed 7",
        Command::View {
            files: FILES,
            seed: 7,
            report: ViewReport {
                form: ReportForm::Json,
                by: ViewBy::Fold,
                argument: "-x",
            },
        },
    ),
    ("frames --capture c", Command::Frames { capture: "c" }),
    ("frames --capture=c", Command::Frames { capture: "c" }),
];

/// Words of direct merges, and what they ask for.
const DIRECT: [(&str, Command<'static>); 3] = [
    (
        "direct --topology t --samples s --script c",
        Command::Direct {
            files: FILES,
            workers: 1,
            form: ReportForm::Text,
        },
    ),
    (
        "direct --topology t --samples s --script c --report=json",
        Command::Direct {
            files: FILES,
            workers: 1,
            form: ReportForm::Json,
        },
    ),
    (
        "direct --workers=0032 --topology t --samples s --script c",
        Command::Direct {
            files: FILES,
            workers: 32,
            form: ReportForm::Text,
        },
    ),
];

/// Words that have no mode, or not the options of their mode.
const NOT_OF_THE_TABLE: [(&str, WordFault); 31] = [
    ("", WordFault::NoMode),
    ("trace", WordFault::UnknownMode),
    ("frame --capture c", WordFault::UnknownMode),
    ("frames", WordFault::Options),
    ("frames --topology t", WordFault::Options),
    ("frames --capture c --report text", WordFault::Options),
    ("frames --capture c --capture c", WordFault::Options),
    ("--help", WordFault::UnknownMode),
    ("--topology t run", WordFault::UnknownMode),
    ("-- run", WordFault::UnknownMode),
    ("RUN", WordFault::UnknownMode),
    ("run", WordFault::Options),
    ("run --topology t", WordFault::Options),
    ("gen", WordFault::Options),
    ("gen --seed 1", WordFault::Options),
    ("gen --size 1 --workers 1", WordFault::Options),
    ("gen --size", WordFault::Options),
    ("gen --size 1 --size 1", WordFault::Options),
    ("gen --size 1 --seed=1 --seed=1", WordFault::Options),
    ("gen --size 1 stray", WordFault::Options),
    ("gen --size 1 --", WordFault::Options),
    ("gen -- --size 1", WordFault::Options),
    ("gen --size -1", WordFault::Options),
    ("gen --siz 1", WordFault::Options),
    ("gen --size 1 -h", WordFault::Options),
    ("gen --size 1 --help", WordFault::Options),
    ("gen --size 1 --version", WordFault::Options),
    (
        "replay --topology t --samples s --script c",
        WordFault::Options,
    ),
    (
        "cast --topology t --samples s --script c --commands 1 --report text",
        WordFault::Options,
    ),
    (
        "view --topology t --samples s --script c --by ranks",
        WordFault::Options,
    ),
    (
        "view --topology t --samples s --script c --by ranks --arg 0 --workers 1",
        WordFault::Options,
    ),
];

/// Words whose options are those of the mode, but not each value.
const BAD_VALUES: [(&str, Opt); 42] = [
    ("run --topology= --samples s --script c", Opt::Topology),
    ("run --topology=-x --samples s --script c", Opt::Topology),
    ("run --topology - --samples s --script c", Opt::Topology),
    ("direct --topology t --samples=-s --script=", Opt::Samples),
    ("direct --topology t --samples s --script=-c", Opt::Script),
    (
        "replay --topology t --samples s --script c --journal-in= --report xml",
        Opt::JournalIn,
    ),
    (
        "sim --seed x --topology=-t --samples s --script c",
        Opt::Topology,
    ),
    (
        "run --topology t --samples s --script c --workers 0",
        Opt::Workers,
    ),
    (
        "run --topology t --samples s --script c --workers 33 --report xml",
        Opt::Workers,
    ),
    (
        "run --topology t --samples s --script c --workers=",
        Opt::Workers,
    ),
    (
        "run --topology t --samples s --script c --workers 4294967297",
        Opt::Workers,
    ),
    (
        "direct --topology t --samples s --script c --workers 0 --report frames",
        Opt::Workers,
    ),
    (
        "direct --topology t --samples s --script c --workers 33",
        Opt::Workers,
    ),
    (
        "direct --topology t --samples s --script=-c --workers 0",
        Opt::Script,
    ),
    (
        "sim --topology t --samples s --script c --seed 18446744073709551616",
        Opt::Seed,
    ),
    (
        "sim --topology t --samples s --script c --seed 000000000000000000007",
        Opt::Seed,
    ),
    ("gen --size 1 --seed=-5", Opt::Seed),
    ("gen --size 1 --seed=+5", Opt::Seed),
    ("gen --size 1 --seed 0x5", Opt::Seed),
    ("gen --size 1 --seed 99999999999999999999", Opt::Seed),
    ("gen --size 0 --seed x", Opt::Seed),
    ("gen --size 0", Opt::Size),
    ("gen --size 257", Opt::Size),
    ("gen --size=", Opt::Size),
    ("gen --size 1.5", Opt::Size),
    (
        "run --topology t --samples s --script c --report xml",
        Opt::Report,
    ),
    (
        "direct --topology t --samples s --script c --report frames",
        Opt::Report,
    ),
    (
        "sim --topology t --samples s --script c --report=",
        Opt::Report,
    ),
    (
        "replay --topology t --samples s --script c --journal-in j --report Text",
        Opt::Report,
    ),
    (
        "run --topology t --samples s --script c --report frame",
        Opt::Report,
    ),
    (
        "cast --topology t --samples s --script c --commands 0",
        Opt::Commands,
    ),
    (
        "cast --topology t --samples s --script c --commands 1001",
        Opt::Commands,
    ),
    (
        "view --topology t --samples s --script c --by class --arg=a;b",
        Opt::By,
    ),
    (
        "view --topology t --samples s --script c --by ranks --arg 0-",
        Opt::Arg,
    ),
    (
        "view --topology t --samples s --script c --by ranks --arg 1048576",
        Opt::Arg,
    ),
    (
        "view --topology t --samples s --script c --by ranks --arg=-",
        Opt::Arg,
    ),
    (
        "view --topology t --samples s --script c --by fold --arg a;b",
        Opt::Arg,
    ),
    (
        "view --topology t --samples s --script c --by frame --arg=",
        Opt::Arg,
    ),
    (
        "view --topology t --samples s --script c --by reps --arg 0",
        Opt::Arg,
    ),
    (
        "view --topology t --samples s --script c --by reps --arg 1001",
        Opt::Arg,
    ),
    ("frames --capture=", Opt::Capture),
    ("frames --capture=-", Opt::Capture),
];

/// The lines of the faults.
const LINES: [(WordFault, &str); 6] = [
    (WordFault::NoMode, "no mode"),
    (WordFault::UnknownMode, "unknown mode"),
    (WordFault::Options, "options"),
    (WordFault::Value(Opt::JournalIn), "value of --journal-in"),
    (WordFault::Value(Opt::Capture), "value of --capture"),
    (WordFault::Value(Opt::Report), "value of --report"),
];

fn words_of(rt: &impl Abort, alloc: Global, text: &str) -> Vec<String> {
    let mut words = Vec::new(alloc);
    for text in text.split_whitespace() {
        let word = String::from_str(alloc, text).expect(rt, "memory");
        assert!(rt; words.push(word).is_ok());
    }
    words
}

fn assert_read(rt: &impl Abort, alloc: Global, text: &str, want: Result<Command<'_>, WordsError>) {
    let words = words_of(rt, alloc, text);
    assert!(rt; read_words(alloc, words.as_slice()) == want, "at {text}");
}

#[test]
fn reads_commands(rt: HostRuntime) {
    for (text, command) in &READ {
        assert_read(&rt, rt.alloc(), text, Ok(*command));
    }
}

#[test]
fn reads_direct_merges(rt: HostRuntime) {
    for (text, command) in &DIRECT {
        assert_read(&rt, rt.alloc(), text, Ok(*command));
    }
}

#[test]
fn refuses_words_that_are_not_of_the_table(rt: HostRuntime) {
    for (text, fault) in &NOT_OF_THE_TABLE {
        assert_read(&rt, rt.alloc(), text, Err(WordsError::Fault(*fault)));
    }
}

#[test]
fn refuses_bad_values_in_their_order(rt: HostRuntime) {
    for (text, option) in &BAD_VALUES {
        let want = Err(WordsError::Fault(WordFault::Value(*option)));
        assert_read(&rt, rt.alloc(), text, want);
    }
}

#[test]
fn shows_faults(rt: HostRuntime) {
    for (fault, line) in &LINES {
        let shown = format!(in rt.alloc(); "{fault}").expect(&rt, "memory");
        assert!(rt; shown.as_str() == *line);
    }
}
