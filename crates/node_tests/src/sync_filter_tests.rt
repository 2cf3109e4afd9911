//! What is due, case by case.

use overlay_setup::Mode;
use rank_set::RankSet;
use stat_plan::{Act, Timer};
use std::alloc::Global;
use std::process::Abort;
use sync_filter::due;

// How a wave stands: of two ranks, how many have come in and how many were passed on; and what is due.
struct Case {
    mode: Mode,
    complete: bool,
    come: u32,
    passed: u32,
    timer: Timer,
    elsewhere: Act,
    front: Act,
}

const CASES: [Case; 9] = [
    Case {
        mode: Mode::WaitForAll,
        complete: false,
        come: 1,
        passed: 0,
        timer: Timer::Off,
        elsewhere: Act::Hold,
        front: Act::Hold,
    },
    Case {
        mode: Mode::WaitForAll,
        complete: true,
        come: 2,
        passed: 0,
        timer: Timer::Off,
        elsewhere: Act::Send,
        front: Act::Final,
    },
    Case {
        mode: Mode::WaitForAll,
        complete: true,
        come: 2,
        passed: 2,
        timer: Timer::Off,
        elsewhere: Act::Hold,
        front: Act::Final,
    },
    Case {
        mode: Mode::DontWait,
        complete: false,
        come: 1,
        passed: 0,
        timer: Timer::Off,
        elsewhere: Act::Send,
        front: Act::Partial,
    },
    Case {
        mode: Mode::DontWait,
        complete: false,
        come: 1,
        passed: 1,
        timer: Timer::Off,
        elsewhere: Act::Hold,
        front: Act::Hold,
    },
    Case {
        mode: Mode::TimeOut(3),
        complete: false,
        come: 1,
        passed: 0,
        timer: Timer::Off,
        elsewhere: Act::Arm,
        front: Act::Arm,
    },
    Case {
        mode: Mode::TimeOut(3),
        complete: false,
        come: 1,
        passed: 0,
        timer: Timer::Running(2),
        elsewhere: Act::Hold,
        front: Act::Hold,
    },
    Case {
        mode: Mode::TimeOut(3),
        complete: false,
        come: 2,
        passed: 1,
        timer: Timer::Fired,
        elsewhere: Act::Send,
        front: Act::Partial,
    },
    Case {
        mode: Mode::TimeOut(3),
        complete: true,
        come: 2,
        passed: 1,
        timer: Timer::Running(2),
        elsewhere: Act::Send,
        front: Act::Final,
    },
];

// The first of the ranks.
fn first_ranks(rt: &impl Abort, alloc: Global, count: u32) -> RankSet {
    let mut ranks = RankSet::new(alloc);
    if count > 0 {
        ranks.insert_run(0, count - 1).expect(rt, "memory");
    }
    ranks
}

#[test]
fn says_what_is_due(rt: HostRuntime) {
    for case in &CASES {
        let come = first_ranks(&rt, rt.alloc(), case.come);
        let passed = first_ranks(&rt, rt.alloc(), case.passed);
        let elsewhere = due(case.mode, case.complete, &come, &passed, case.timer, false);
        assert!(rt; elsewhere == case.elsewhere);
        let front = due(case.mode, case.complete, &come, &passed, case.timer, true);
        assert!(rt; front == case.front);
    }
}
