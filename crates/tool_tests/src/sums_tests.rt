//! Sums over ranks: worked jobs through whole calls, and values that are refused.
ghost use Rattle.std.specs.Prelude.{◌≡◌, [], false, OnOk};
ghost use Rattle.overlay_net.specs.Nets.{AllHome, IsReachedBy};

use crate::calls::{Called, assert_refused, call, plan_of};
use front_end::{numbered_releases_are_distinct, sums_text};
use journal_text::read_journal;
use overlay_event::Journal;
use overlay_net::{Net, NetError};
use prefix_tree::{OwnedTree, PrefixTree};
use rank_sums::{Fold, part_plan, sums_are_exact};
use stat_plan::Plan;
use stat_tool::{FileRole, Status};
use stat_words::{Opt, WordFault};
use std::alloc::{AllocError, Global};
use std::process::Abort;
use std::sync::Wait;
use std::thread::Threads;
use test_jobs::desks::{desk_of, put};
use test_jobs::jobs::{ALL_SCR, FOUR_SMP, INNER_TOP, LOST_JOURNAL, LOST_SCR, TWO_TOP};
use text_lines::{Quantity, Reason};
use value_text::{Values, read_values};

const VALUES: &str = "value 0 5\nvalue 1-2 -3\n";

const TWO_WAVES_SCR: &str = "stream 0 wait-for-all waves 2 samples 2 on all\n";

// What a call says of a job of four ranks, with these values and these words after those of the files.
fn called<R: Threads + Wait + Sync + Abort>(
    rt: &R,
    alloc: Global,
    job: [&str; 2],
    values: &str,
    options: [&str; 2],
) -> Called {
    let [topology, script] = job;
    let [fold, other] = options;
    let mut desk = desk_of(alloc, topology, FOUR_SMP, script).expect(rt, "memory");
    put(alloc, &mut desk, "v", values.as_bytes()).expect(rt, "memory");
    let words = [
        "sums",
        "--topology=t",
        "--samples=s",
        "--script=c",
        "--values=v",
        fold,
        other,
    ];
    call(rt, alloc, &mut desk, words.as_slice())
}

// A fold, what four ranks come to by it, and what they come to where none has a number.
const FOLDS: [(&str, &str, &str); 4] = [
    ("--fold=sum", "sum -1", "sum 0"),
    ("--fold=min", "min -3", "min -"),
    ("--fold=max", "max 5", "max -"),
    ("--fold=count", "count 3", "count 0"),
];

#[test]
fn folds_the_numbers(rt: HostRuntime) {
    let alloc = rt.alloc();
    for (fold, some, none) in FOLDS.as_slice() {
        for (values, value) in [(VALUES, some), ("", none)].as_slice() {
            let run = called(&rt, alloc, [TWO_TOP, ALL_SCR], values, [fold, "--seed=0"]);
            let report = format!(in alloc;
                "stream 0 wave 0 release 1 final covered 4:[0-3] {value}\nend\n"
            ).expect(&rt, "memory");
            assert!(rt; run.status == Status::Done);
            assert!(rt; run.report.bytes() == report.as_bytes());
            assert!(rt; run.journal.bytes().is_empty());
            assert!(rt; run.events.len() == 6);
        }
    }
}

// A job's topology and script, its values, the words after those of the files, and what is printed.
struct Summed {
    job: [&'static str; 2],
    values: &'static str,
    options: [&'static str; 2],
    report: &'static str,
}

const SUMMED: [Summed; 5] = [
    // Each wave has its line; its parts are sampled at the wave's first time.
    Summed {
        job: [TWO_TOP, TWO_WAVES_SCR],
        values: VALUES,
        options: ["--fold=sum", "--seed=3"],
        report: "stream 0 wave 0 release 1 final covered 4:[0-3] sum -1
stream 0 wave 1 release 1 final covered 4:[0-3] sum -1
end
",
    },
    // Two daemons with the same part: it counts for both.
    Summed {
        job: [TWO_TOP, ALL_SCR],
        values: "value 0-3 2\n",
        options: ["--fold=sum", "--seed=0"],
        report: "stream 0 wave 0 release 1 final covered 4:[0-3] sum 8\nend\n",
    },
    // JSON.
    Summed {
        job: [TWO_TOP, ALL_SCR],
        values: VALUES,
        options: ["--fold=min", "--report=json"],
        report: "{\"releases\":[{\"covered\":\"4:[0-3]\",\"fold\":\"min\",\"kind\":\"final\",\"number\":1,\"stream\":0,\"value\":-3,\"wave\":0}]}\n",
    },
    Summed {
        job: [TWO_TOP, ALL_SCR],
        values: VALUES,
        options: ["--fold=max", "--report=json"],
        report: "{\"releases\":[{\"covered\":\"4:[0-3]\",\"fold\":\"max\",\"kind\":\"final\",\"number\":1,\"stream\":0,\"value\":5,\"wave\":0}]}\n",
    },
    Summed {
        job: [TWO_TOP, ALL_SCR],
        values: "",
        options: ["--fold=max", "--report=json"],
        report: "{\"releases\":[{\"covered\":\"4:[0-3]\",\"fold\":\"max\",\"kind\":\"final\",\"number\":1,\"stream\":0,\"value\":null,\"wave\":0}]}\n",
    },
];

#[test]
fn folds_waves_and_equal_parts_and_as_json(rt: HostRuntime) {
    for case in SUMMED.as_slice() {
        let run = called(&rt, rt.alloc(), case.job, case.values, case.options);
        assert!(rt; run.status == Status::Done);
        assert!(rt; run.report.bytes() == case.report.as_bytes());
    }
}

// An inner node is lost and its daemons send their parts again: each counts once, whatever the seed.
#[test]
fn counts_no_part_twice(rt: HostRuntime) {
    let alloc = rt.alloc();
    for seed in 0u32..100 {
        let option = format!(in alloc; "--seed={seed}").expect(&rt, "memory");
        let run = called(
            &rt,
            alloc,
            [INNER_TOP, LOST_SCR],
            VALUES,
            ["--fold=sum", option.as_str()],
        );
        assert!(rt; run.status == Status::Done);
        assert!(rt;
            run.report.bytes()
                == "stream 0 wave 0 release 1 final covered 4:[0-3] sum -1\nend\n".as_bytes()
        );
    }
}

// A values text, and its first error.
const REFUSED: [(&str, u64, Reason); 5] = [
    ("value 0 5\nvalue 0 5\n", 2, Reason::ValueTwice),
    ("value 0 00000000000000\n", 1, Reason::BadValue),
    ("value 0 1000000000001\n", 1, Reason::BadValue),
    ("value 4 1\n", 1, Reason::Unplaced),
    ("value 0\n", 1, Reason::BadDirective),
];

const SUM_OPTIONS: [&str; 2] = ["--fold=sum", "--seed=0"];

// Values are refused with this status, and nothing is done or written.
fn assert_bad<R: Threads + Wait + Sync + Abort>(
    rt: &R,
    alloc: Global,
    values: &str,
    status: Status,
) {
    let run = called(rt, alloc, [TWO_TOP, ALL_SCR], values, SUM_OPTIONS);
    assert!(rt; run.status == status);
    assert!(rt; run.report.bytes().is_empty() && run.events.is_empty());
}

#[test]
fn refuses_values(rt: HostRuntime) {
    let file = FileRole::Values;
    for (values, line, reason) in REFUSED.as_slice() {
        let (line, reason) = (*line, *reason);
        assert_bad(
            &rt,
            rt.alloc(),
            values,
            Status::BadInput { file, line, reason },
        );
    }
    let status = Status::OverLimit {
        file,
        line: 1,
        what: Quantity::Ranks,
        limit: 1_048_576,
    };
    assert_bad(&rt, rt.alloc(), "value 1048576 1\n", status);
}

const NO_FOLD: [&str; 2] = ["--fold=mean", "--seed=0"];

const SUM_WORDS: [&str; 6] = [
    "sums",
    "--topology=t",
    "--samples=s",
    "--script=c",
    "--values=v",
    "--fold=sum",
];

// The file of the values is missing; a fold that is none.
#[test]
fn refuses_calls(rt: HostRuntime) {
    let alloc = rt.alloc();
    let mut desk = desk_of(alloc, TWO_TOP, FOUR_SMP, ALL_SCR).expect(&rt, "memory");
    let status = Status::DeskFault(FileRole::Values);
    assert_refused(&rt, alloc, &mut desk, SUM_WORDS.as_slice(), status);
    let run = called(&rt, alloc, [TWO_TOP, ALL_SCR], VALUES, NO_FOLD);
    assert!(rt; run.status == Status::BadWords(WordFault::Value(Opt::Fold)));
}

// ---- a given journal

// Does the events of a journal, where each may come.
fn redo<T: PrefixTree>(net: &mut Net<'_, T>, journal: &Journal) -> Result<(), NetError>
    requires usable { net.old.failed ≡ false }
    requires home { AllHome net.old }
    requires start { IsReachedBy net.old [] }
    ensures plan { net.new.plan ≡ net.old.plan }
    ensures usable { OnOk result (net.new.failed ≡ false) }
    ensures reached { OnOk result (IsReachedBy net.new journal.now) }
{
    for number in 0..journal.len() {
        match net.apply(journal.at(number)) {
            Ok(()) => {}
            Err(error) => return Err(error),
        }
    }
    Ok(())
}

// The sums of what a journal releases, where the parts of a plan's daemons are sampled; none where an event of it may
// not come.
fn sums_after<T: PrefixTree>(
    alloc: Global,
    plan: Plan,
    values: &Values,
    journal: &str,
) -> Result<Option<Vec<u8>>, AllocError> {
    numbered_releases_are_distinct();
    sums_are_exact();
    let parts = part_plan(alloc, plan, values, Fold::Sum)?;
    let read = read_journal(alloc, &parts, journal.as_bytes())?;
    let mut net: Net<'_, T> = Net::new(alloc, &parts)?;
    match redo(&mut net, &read.events) {
        Ok(()) => {}
        Err(_) => return Ok(None),
    }
    let text = sums_text(alloc, net.releases(), Fold::Sum)?;
    Ok(Some(text))
}

// In the journal both daemons send their parts again: one final release, with each part once.
#[test]
fn folds_what_a_journal_releases(rt: HostRuntime) {
    let alloc = rt.alloc();
    let plan = plan_of(alloc, INNER_TOP, FOUR_SMP, LOST_SCR).expect(&rt, "a plan");
    let values = read_values(alloc, VALUES.as_bytes(), &plan).expect(&rt, "values");
    let text = sums_after::<OwnedTree>(alloc, plan, &values, LOST_JOURNAL).expect(&rt, "memory");
    let text = text.expect(&rt, "events that may come");
    let report = "stream 0 wave 0 release 1 final covered 4:[0-3] sum -1\nend\n";
    assert!(rt; text.as_slice() == report.as_bytes());
}
