//! Simulations, replays, direct merges, generated jobs, views and commands: worked jobs through whole calls.
use crate::calls::{assert_report, assert_written, call};
use overlay_event::Event;
use stat_desk::MemDesk;
use stat_tool::Status;
use std::alloc::Global;
use std::process::Abort;
use test_jobs::desks::{REPLAY_WORDS, WORDS, desk_of, put};
use test_jobs::jobs::{
    ALL_SCR, DONT_WAIT_SCR, FOUR_RELEASE, FOUR_SMP, INNER_TOP, LOST_JOURNAL, LOST_SCR, ONE_TOP,
    SOLVER_SMP, TWO_INNER_TOP, TWO_TOP, WORKED,
};

// ---- replays

// A job, the journal that it is replayed with, how the replay ends, and its report: the releases and the faults' lines.
struct Replayed {
    topology: &'static str,
    samples: &'static str,
    script: &'static str,
    journal: &'static str,
    status: Status,
    releases: &'static str,
    faults: &'static str,
}

const ONE_SMP: &str = "daemon a:0 0\n";

const ONE_RELEASE: &str = "stream 0 wave 0 release 1 final
covered 1:[0]
tree
1:[0] - /
classes
class 1:[0] paths 0
";

// After the first tick what has come of one daemon is released, and then what has come of both.
const TWO_RELEASES: &str = "stream 0 wave 0 release 1 partial
covered 2:[0-1]
pending b:0 2:[2-3]
tree
2:[0-1] - /
  2:[0-1] - main
    1:[0] 1:[0] MPI_Barrier
    1:[1] 1:[1] compute
classes
class 1:[0] paths 1
  main;MPI_Barrier
class 1:[1] paths 1
  main;compute
stream 0 wave 0 release 2 final
covered 4:[0-3]
tree
4:[0-3] - /
  4:[0-3] - main
    3:[0,2-3] 3:[0,2-3] MPI_Barrier
    1:[1] 1:[1] compute
classes
class 3:[0,2-3] paths 1
  main;MPI_Barrier
class 1:[1] paths 1
  main;compute
";

const CHAIN_RELEASE: &str = "stream 0 wave 0 release 1 final
covered 2:[0-1]
tree
2:[0-1] - /
  2:[0-1] 2:[0-1] main
classes
class 2:[0-1] paths 1
  main
";

const REPLAYED: [Replayed; 11] = [
    // an inner node is lost at the start: what a sends in its first sample is dropped, and it sends again
    Replayed {
        topology: INNER_TOP,
        samples: FOUR_SMP,
        script: "stream 0 wait-for-all waves 1 samples 1 on all\nlose c0:0 after 0 keep 0\n",
        journal: "lose c0:0
sample a:0 0 0
recv a:0 c0:0
recv b:0 c0:0
sample b:0 0 0
recv fe:0 c0:0
recv fe:0 a:0
recv fe:0 a:0
recv fe:0 b:0
recv fe:0 b:0
recv a:0 fe:0
recv b:0 fe:0
",
        status: Status::Done,
        releases: FOUR_RELEASE,
        faults: "fault c0:0 lost after 0\n",
    },
    // it is lost after it has sent: ranks 0 and 1 come twice and are counted once, those of b come again after the end
    Replayed {
        topology: INNER_TOP,
        samples: FOUR_SMP,
        script: LOST_SCR,
        journal: LOST_JOURNAL,
        status: Status::Done,
        releases: FOUR_RELEASE,
        faults: "fault c0:0 lost after 2\n",
    },
    // a chain of inner nodes is lost
    Replayed {
        topology: "fe:0 => c0:0 ;\nc0:0 => c1:0 ;\nc1:0 => a:0 ;\n",
        samples: "daemon a:0 0-1\nstack 0 0-1 main\n",
        script: "stream 0 wait-for-all waves 1 samples 1 on all
lose c0:0 after 0 keep 0
lose c1:0 after 0 keep 0
",
        journal: "lose c0:0
lose c1:0
sample a:0 0 0
recv a:0 c1:0
recv a:0 c0:0
recv fe:0 a:0
recv fe:0 a:0
recv fe:0 c0:0
recv fe:0 c1:0
recv a:0 fe:0
",
        status: Status::Done,
        releases: CHAIN_RELEASE,
        faults: "fault c0:0 lost after 0\nfault c1:0 lost after 0\n",
    },
    // a timer runs out after one tick
    Replayed {
        topology: TWO_TOP,
        samples: FOUR_SMP,
        script: "stream 0 time-out 1 waves 1 samples 1 on all\n",
        journal: "sample a:0 0 0
recv fe:0 a:0
tick fe:0
sample b:0 0 0
recv fe:0 b:0
recv a:0 fe:0
recv b:0 fe:0
",
        status: Status::Done,
        releases: TWO_RELEASES,
        faults: "",
    },
    // journals that end early, by how much
    Replayed {
        topology: ONE_TOP,
        samples: ONE_SMP,
        script: ALL_SCR,
        journal: "sample a:0 0 0\nrecv fe:0 a:0\n",
        status: Status::Unfinished(Event::Recv { node: 1, from: 0 }),
        releases: ONE_RELEASE,
        faults: "",
    },
    Replayed {
        topology: ONE_TOP,
        samples: ONE_SMP,
        script: ALL_SCR,
        journal: "sample a:0 0 0\r\n",
        status: Status::Unfinished(Event::Recv { node: 0, from: 1 }),
        releases: "",
        faults: "",
    },
    Replayed {
        topology: ONE_TOP,
        samples: ONE_SMP,
        script: ALL_SCR,
        journal: "",
        status: Status::Unfinished(Event::Sample {
            node: 1,
            stream: 0,
            wave: 0,
        }),
        releases: "",
        faults: "",
    },
    // nothing may come at an inner node that is to be lost but its loss
    Replayed {
        topology: INNER_TOP,
        samples: FOUR_SMP,
        script: "stream 0 wait-for-all waves 1 samples 1 on all\nlose c0:0 after 0 keep 0\n",
        journal: "lose c0:0\nrecv c0:0 a:0\n",
        status: Status::BadJournal(1),
        releases: "",
        faults: "",
    },
    // a first line that says nothing
    Replayed {
        topology: ONE_TOP,
        samples: ONE_SMP,
        script: ALL_SCR,
        journal: "go\n",
        status: Status::BadJournal(0),
        releases: "",
        faults: "",
    },
    // an event that may not come before a bad line
    Replayed {
        topology: ONE_TOP,
        samples: ONE_SMP,
        script: ALL_SCR,
        journal: "sample a:0 0 0\ntick a:0\nrecv fe:0 a:0\ngo\n",
        status: Status::BadJournal(1),
        releases: "",
        faults: "",
    },
    // a leading zero, after good lines
    Replayed {
        topology: ONE_TOP,
        samples: ONE_SMP,
        script: ALL_SCR,
        journal: "sample a:0 0 0\nrecv fe:0 a:0\nsample a:0 0 00\n",
        status: Status::BadJournal(2),
        releases: "",
        faults: "",
    },
];

// The report of a replay that ends in this way: none where the journal is refused.
fn report_of(rt: &impl Abort, alloc: Global, job: &Replayed) -> String {
    let (releases, faults) = (job.releases, job.faults);
    match job.status {
        Status::BadJournal(_) => String::new(alloc),
        _ => format!(in alloc; "{releases}{faults}end\n").expect(rt, "memory"),
    }
}

fn desk_with_journal(rt: &impl Abort, alloc: Global, job: &Replayed) -> MemDesk {
    let mut desk = desk_of(alloc, job.topology, job.samples, job.script).expect(rt, "memory");
    put(alloc, &mut desk, "j", job.journal.as_bytes()).expect(rt, "memory");
    desk
}

#[test]
fn replays_journals(rt: HostRuntime) {
    let alloc = rt.alloc();
    for job in REPLAYED.as_slice() {
        let mut desk = desk_with_journal(&rt, alloc, job);
        let called = call(&rt, alloc, &mut desk, REPLAY_WORDS.as_slice());
        let report = report_of(&rt, alloc, job);
        assert!(rt; called.status == job.status);
        assert!(rt; called.report.bytes() == report.as_bytes());
        assert!(rt; called.journal.bytes().is_empty());
    }
}

// ---- simulations

// A job, the words of a simulation after those of its files, the journal's text and the report.
struct Simulated {
    topology: &'static str,
    samples: &'static str,
    script: &'static str,
    mode: [&'static str; 2],
    journal: &'static str,
    report: &'static str,
}

// What has come of the daemon b is released at once, and then what has come of both.
const PICKED_REPORT: &str = "stream 0 wave 0 release 1 partial
covered 1:[1]
pending a:0 1:[0]
tree
1:[1] - /
  1:[1] - main
    1:[1] 1:[1] io
classes
class 1:[1] paths 1
  main;io
stream 0 wave 0 release 2 final
covered 2:[0-1]
tree
2:[0-1] - /
  2:[0-1] 1:[0] main
    1:[1] 1:[1] io
classes
class 1:[0] paths 1
  main
class 1:[1] paths 1
  main;io
end
";

const SIMULATED: [Simulated; 4] = [
    Simulated {
        topology: ONE_TOP,
        samples: ONE_SMP,
        script: ALL_SCR,
        mode: ["--seed", "12345678901234567890"],
        journal: "sample a:0 0 0\nrecv fe:0 a:0\nrecv a:0 fe:0\n",
        report: "stream 0 wave 0 release 1 final
covered 1:[0]
tree
1:[0] - /
classes
class 1:[0] paths 0
end
",
    },
    Simulated {
        topology: ONE_TOP,
        samples: ONE_SMP,
        script: ALL_SCR,
        mode: ["--report", "json"],
        journal: "sample a:0 0 0\nrecv fe:0 a:0\nrecv a:0 fe:0\n",
        report: "{\"faults\":[],\"releases\":[{\"classes\":[{\"paths\":[],\"ranks\":\"1:[0]\"}],\"covered\":\"1:[0]\",\"kind\":\"final\",\"missing\":[],\"number\":1,\"stream\":0,\"tree\":[{\"depth\":0,\"ends\":\"0:[]\",\"frame\":\"/\",\"label\":\"1:[0]\"}],\"wave\":0}]}
",
    },
    // seed 0, which is the default
    Simulated {
        topology: TWO_TOP,
        samples: "daemon a:0 0\ndaemon b:0 1\nstack 0 0 main\nstack 0 1 main;io\n",
        script: DONT_WAIT_SCR,
        mode: ["--report", "text"],
        journal: "sample b:0 0 0
recv fe:0 b:0
sample a:0 0 0
recv fe:0 a:0
recv b:0 fe:0
recv a:0 fe:0
",
        report: PICKED_REPORT,
    },
    Simulated {
        topology: TWO_TOP,
        samples: "daemon a:0 0\ndaemon b:0 1\nstack 0 0 main\nstack 0 1 main;io\n",
        script: DONT_WAIT_SCR,
        mode: ["--seed", "00"],
        journal: "sample b:0 0 0
recv fe:0 b:0
sample a:0 0 0
recv fe:0 a:0
recv b:0 fe:0
recv a:0 fe:0
",
        report: PICKED_REPORT,
    },
];

#[test]
fn simulates_by_a_seed(rt: HostRuntime) {
    let alloc = rt.alloc();
    for job in SIMULATED.as_slice() {
        let mut desk = desk_of(alloc, job.topology, job.samples, job.script).expect(&rt, "memory");
        let [first, second] = job.mode;
        let words = [
            "sim",
            "--topology=t",
            "--samples=s",
            "--script=c",
            first,
            second,
        ];
        assert_written(
            &rt,
            alloc,
            &mut desk,
            words.as_slice(),
            [job.report, job.journal],
        );
    }
}

// A run's journal is replayed with the same report.
#[test]
fn replays_what_was_run(rt: HostRuntime) {
    let alloc = rt.alloc();
    for job in WORKED.as_slice() {
        let mut desk = desk_of(alloc, job.topology, job.samples, job.script).expect(&rt, "memory");
        let run = call(&rt, alloc, &mut desk, WORDS.as_slice());
        put(alloc, &mut desk, "j", run.journal.bytes()).expect(&rt, "memory");
        assert_report(&rt, alloc, &mut desk, REPLAY_WORDS.as_slice(), job.report);
    }
}

// ---- direct merges

const DIRECT_WORDS: [&str; 7] = [
    "direct",
    "--topology",
    "t",
    "--samples",
    "s",
    "--script",
    "c",
];

// Where all daemons live and each stream waits for all, a direct merge writes what a run does, and no journal.
#[test]
fn merges_directly(rt: HostRuntime) {
    let alloc = rt.alloc();
    for job in WORKED.as_slice() {
        let mut desk = desk_of(alloc, job.topology, job.samples, job.script).expect(&rt, "memory");
        let called = call(&rt, alloc, &mut desk, DIRECT_WORDS.as_slice());
        assert!(rt; called.status == Status::Done);
        assert!(rt; called.events.is_empty() && called.journal.bytes().is_empty());
        if job.script != DONT_WAIT_SCR {
            assert!(rt; called.report.bytes() == job.report.as_bytes());
        }
    }
}

// A direct merge has the ranks of daemons that the script loses, and says nothing of faults.
#[test]
fn merges_lost_daemons_directly(rt: HostRuntime) {
    let alloc = rt.alloc();
    let script = "stream 0 wait-for-all waves 1 samples 1 on all\nlose b:0 after 0 keep 0\n";
    let mut desk = desk_of(alloc, TWO_TOP, FOUR_SMP, script).expect(&rt, "memory");
    let report = format!(in alloc; "{FOUR_RELEASE}end\n").expect(&rt, "memory");
    let words = DIRECT_WORDS.as_slice();
    assert_written(&rt, alloc, &mut desk, words, [report.as_str(), ""]);
}

// ---- generated jobs

// The words of a generated job, and its summary.
const GENERATED: [([&str; 3], &str); 2] = [
    (
        ["gen", "--size", "1"],
        "gen seed 0 size 1
nodes 3 ranks 64 lines 128
events 10 partial 0 final 2 lost 0
stream 0 wave 0 covered 64 rows 18 classes 12
stream 1 wave 0 covered 64 rows 18 classes 12
end
",
    ),
    (
        ["gen", "--size", "256"],
        "gen seed 0 size 256
nodes 273 ranks 16384 lines 32768
events 2152 partial 255 final 2 lost 8
stream 0 wave 0 covered 16384 rows 18 classes 12
stream 1 wave 0 covered 16384 rows 18 classes 12
end
",
    ),
];

#[test]
fn sums_generated_jobs_up(rt: HostRuntime) {
    let alloc = rt.alloc();
    let mut desk = MemDesk::new(alloc);
    for (words, summary) in GENERATED.as_slice() {
        assert_written(&rt, alloc, &mut desk, words.as_slice(), [summary, ""]);
    }
}

// ---- views

// A view of the solver's job, and what is printed behind the ranks that its release covers.
struct Viewed {
    by: &'static str,
    argument: &'static str,
    report: &'static str,
}

const VIEWED: [Viewed; 4] = [
    Viewed {
        by: "--by=fold",
        argument: "--arg=MPI_Barrier",
        report: "view fold MPI_Barrier
kept 64:[0-63]
tree
64:[0-63] - /
  64:[0-63] - main
    64:[0-63] - solver::step(Grid&)
      63:[0-16,18-63] 63:[0-16,18-63] MPI_Barrier
      1:[17] - solver::exchange<double, 3>(Grid const&, int)
        1:[17] 1:[17] MPI_Recv
classes
class 63:[0-16,18-63] paths 1
  main;solver::step(Grid&);MPI_Barrier
class 1:[17] paths 1
  main;solver::step(Grid&);solver::exchange<double, 3>(Grid const&, int);MPI_Recv
end
",
    },
    Viewed {
        by: "--by=reps",
        argument: "--arg=1",
        report: "view reps 1
kept 2:[0,17]
tree
2:[0,17] - /
  2:[0,17] - main
    2:[0,17] - solver::step(Grid&)
      1:[0] - MPI_Barrier
        1:[0] - PMPI_Barrier
          1:[0] 1:[0] poll
      1:[17] - solver::exchange<double, 3>(Grid const&, int)
        1:[17] 1:[17] MPI_Recv
classes
class 1:[0] paths 1
  main;solver::step(Grid&);MPI_Barrier;PMPI_Barrier;poll
class 1:[17] paths 1
  main;solver::step(Grid&);solver::exchange<double, 3>(Grid const&, int);MPI_Recv
end
",
    },
    Viewed {
        by: "--by=frame",
        argument: "--arg=MPI_Recv",
        report: "view frame MPI_Recv
kept 1:[17]
tree
1:[17] - /
  1:[17] - main
    1:[17] - solver::step(Grid&)
      1:[17] - solver::exchange<double, 3>(Grid const&, int)
        1:[17] 1:[17] MPI_Recv
classes
class 1:[17] paths 1
  main;solver::step(Grid&);solver::exchange<double, 3>(Grid const&, int);MPI_Recv
end
",
    },
    Viewed {
        by: "--by=ranks",
        argument: "--arg=100",
        report: "view ranks 100
kept 0:[]
tree
0:[] - /
classes
end
",
    },
];

#[test]
fn views_the_solver(rt: HostRuntime) {
    let alloc = rt.alloc();
    let mut desk = desk_of(alloc, TWO_INNER_TOP, SOLVER_SMP, ALL_SCR).expect(&rt, "memory");
    for view in VIEWED.as_slice() {
        let (by, argument, rest) = (view.by, view.argument, view.report);
        let words = [
            "view",
            "--topology=t",
            "--samples=s",
            "--script=c",
            by,
            argument,
        ];
        let report = format!(in alloc;
            "stream 0 wave 0 release 1 final\ncovered 64:[0-63]\n{rest}"
        ).expect(&rt, "memory");
        let written = [report.as_str(), ""];
        assert_written(&rt, alloc, &mut desk, words.as_slice(), written);
    }
}

const JSON_VIEW: [&str; 7] = [
    "view",
    "--topology=t",
    "--samples=s",
    "--script=c",
    "--report=json",
    "--by=frame",
    "--arg=a\"b",
];

const JSON_REPORT: &str =
    "{\"releases\":[{\"classes\":[],\"covered\":\"64:[0-63]\",\"kept\":\"0:[]\",\"kind\":\"final\",\"number\":1,\"stream\":0,\"tree\":[{\"depth\":0,\"ends\":\"0:[]\",\"frame\":\"/\",\"label\":\"0:[]\"}],\"view\":{\"argument\":\"a\\\"b\",\"by\":\"frame\"},\"wave\":0}]}
";

#[test]
fn views_as_json(rt: HostRuntime) {
    let alloc = rt.alloc();
    let mut desk = desk_of(alloc, TWO_INNER_TOP, SOLVER_SMP, ALL_SCR).expect(&rt, "memory");
    assert_report(&rt, alloc, &mut desk, JSON_VIEW.as_slice(), JSON_REPORT);
}

// ---- commands

// A topology of four ranks, a script, the words of a cast after those of its files, its journal and its report.
struct Commanded {
    topology: &'static str,
    script: &'static str,
    commands: &'static str,
    journal: &'static str,
    report: &'static str,
}

const COMMANDED: [Commanded; 2] = [
    Commanded {
        topology: TWO_TOP,
        script: ALL_SCR,
        commands: "--commands=1",
        journal: "issue fe:0\nrecv a:0 fe:0\nrecv b:0 fe:0\n",
        report: "command 1 ranks 4:[0-3]\ndaemon a:0 obeyed 1\ndaemon b:0 obeyed 1\nend\n",
    },
    Commanded {
        topology: TWO_TOP,
        script: "stream 0 wait-for-all waves 1 samples 1 on all\nlose b:0 after 0 keep 0\n",
        commands: "--commands=1",
        journal: "lose b:0\nissue fe:0\nrecv a:0 fe:0\nrecv fe:0 b:0\n",
        report: "command 1 ranks 2:[0-1]\ndaemon a:0 obeyed 1\ndaemon b:0 obeyed 0 lost\nend\n",
    },
];

const CAST_WORDS: [&str; 4] = ["cast", "--topology=t", "--samples=s", "--script=c"];

#[test]
fn sends_commands(rt: HostRuntime) {
    let alloc = rt.alloc();
    for job in COMMANDED.as_slice() {
        let [mode, topology, samples, script] = CAST_WORDS;
        let words = [mode, topology, samples, script, job.commands];
        let mut desk = desk_of(alloc, job.topology, FOUR_SMP, job.script).expect(&rt, "memory");
        let called = call(&rt, alloc, &mut desk, words.as_slice());
        assert!(rt; called.status == Status::Done);
        assert!(rt; called.report.bytes() == job.report.as_bytes());
        assert!(rt; called.journal.bytes() == job.journal.as_bytes());
        assert!(rt; called.events.is_empty());
    }
}

// An inner node is lost with a command on its way: whatever the seed, both daemons obey both commands.
#[test]
fn commands_reach_orphans(rt: HostRuntime) {
    let alloc = rt.alloc();
    let script = "stream 0 wait-for-all waves 1 samples 1 on all\nlose c0:0 after 1 keep 0\n";
    let mut desk = desk_of(alloc, INNER_TOP, FOUR_SMP, script).expect(&rt, "memory");
    for seed in 0u32..100 {
        let option = format!(in alloc; "--seed={seed}").expect(&rt, "memory");
        let [mode, topology, samples, script] = CAST_WORDS;
        let words = [
            mode,
            topology,
            samples,
            script,
            "--commands=2",
            option.as_str(),
        ];
        assert_report(&rt, alloc, &mut desk, words.as_slice(), BOTH_OBEY);
    }
}

const BOTH_OBEY: &str = "command 1 ranks 4:[0-3]
command 2 ranks 4:[0-3]
daemon a:0 obeyed 2
daemon b:0 obeyed 2
end
";
