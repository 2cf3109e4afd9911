//! Each call of a book, with the states that it must lead to.

ghost use Rattle.std.specs.Prelude.{◌≤◌, OnOk};
ghost use Rattle.wave_resend.specs.Books.{HasOpen, IsIn};

use crate::plans::plan_of;
use rank_set::{RankError, RankSet};
use stat_plan::Timer;
use std::alloc::{AllocError, Global};
use std::process::Abort;
use wave_resend::{WaveBook, WaveState};

const NODES: &[u8] = b"fe:0 => a:0 ;\n";

const SAMPLES: &[u8] = b"daemon a:0 0\n";

const SCRIPT: &[u8] =
    b"stream 0 wait-for-all waves 2 samples 1 on all\nstream 3 wait-for-all waves 1 samples 1 on all\n";

// That a wave is the first open one behind another.
fn assert_next(rt: &impl Abort, book: &WaveBook, after: Option<(u8, u8)>, s: u8, w: u8)
    ensures { HasOpen s w book.now }
{
    let Some((stream, wave)) = book.next_open(after) else {
        panic!(rt; "no wave is open");
    };
    assert!(rt; stream == s && wave == w);
}

// Waves 0 and 1 of stream 0, and wave 0 of stream 3.
fn three_waves(rt: &impl Abort, alloc: Global) -> WaveBook
    ensures first { HasOpen 0 0 result }
    ensures second { HasOpen 0 1 result }
    ensures third { HasOpen 3 0 result }
{
    let plan = plan_of(rt, alloc, NODES, SAMPLES, SCRIPT);
    assert!(rt; plan.nodes() > 1);
    let book = WaveBook::new(alloc, &plan, 1).expect(rt, "memory");
    assert_next(rt, &book, None, 0, 0);
    assert_next(rt, &book, Some((0, 0)), 0, 1);
    assert_next(rt, &book, Some((0, 1)), 3, 0);
    book
}

// How many ranks of a wave have come in and were passed on, and its timer; none if it has ended.
fn counts(book: &WaveBook, s: u8, w: u8) -> Option<(u32, u32, Timer)>
    requires { IsIn s w book.now }
{
    match book.state(s, w) {
        WaveState::Open {
            covered,
            sent,
            timer,
        } => Some((covered.count(), sent.count(), timer)),
        WaveState::Closed => None,
    }
}

// These ranks have come in of a wave.
fn grow(
    alloc: Global,
    book: &mut WaveBook,
    s: u8,
    w: u8,
    first: u32,
    last: u32,
) -> Result<(), RankError>
    requires { HasOpen s w book.old }
    ensures { OnOk result (HasOpen s w book.new) }
{
    let mut ranks = RankSet::new(alloc);
    ranks.insert_run(first, last)?;
    book.grew(s, w, &ranks)?;
    Ok(())
}

// All that has come in of a wave was passed on.
fn pass_on(book: &mut WaveBook, s: u8, w: u8) -> Result<(), AllocError>
    requires { HasOpen s w book.old }
    ensures { OnOk result (HasOpen s w book.new) }
{
    book.mark_sent(s, w)?;
    Ok(())
}

// A wave's timer starts.
fn start_timer(book: &mut WaveBook, s: u8, w: u8, t: u16)
    requires wave { HasOpen s w book.old }
    requires ticks { 1 ≤ t }
    ensures { HasOpen s w book.new }
{
    book.arm(s, w, t);
}

// A tick.
fn go_on(book: &mut WaveBook, s: u8, w: u8)
    requires { IsIn s w book.old }
    ensures { IsIn s w book.new }
{
    book.tick();
}

#[test]
fn ranks_come_in(rt: HostRuntime) {
    let mut book = three_waves(&rt, rt.alloc());
    assert!(rt; book.next_empty(0) == Some(0));
    grow(rt.alloc(), &mut book, 0, 0, 1, 2).expect(&rt, "memory");
    grow(rt.alloc(), &mut book, 0, 0, 2, 64).expect(&rt, "memory");
    assert!(rt; counts(&book, 0, 0) == Some((64, 0, Timer::Off)));
    assert!(rt; book.next_empty(0) == Some(1));
    assert!(rt; book.next_empty(1) == None);
    assert!(rt; book.next_empty(3) == Some(0));
}

#[test]
fn what_was_sent_is_what_has_come_in(rt: HostRuntime) {
    let mut book = three_waves(&rt, rt.alloc());
    grow(rt.alloc(), &mut book, 0, 1, 1, 2).expect(&rt, "memory");
    start_timer(&mut book, 0, 1, 5);
    pass_on(&mut book, 0, 1).expect(&rt, "memory");
    assert!(rt; counts(&book, 0, 1) == Some((2, 2, Timer::Off)));
    grow(rt.alloc(), &mut book, 0, 1, 3, 3).expect(&rt, "memory");
    assert!(rt; counts(&book, 0, 1) == Some((3, 2, Timer::Off)));
}

#[test]
fn timers_run_out(rt: HostRuntime) {
    let mut book = three_waves(&rt, rt.alloc());
    assert!(rt; !book.has_running());
    start_timer(&mut book, 3, 0, 2);
    assert!(rt; book.has_running());
    go_on(&mut book, 3, 0);
    assert!(rt; counts(&book, 3, 0) == Some((0, 0, Timer::Running(1))));
    go_on(&mut book, 3, 0);
    assert!(rt; counts(&book, 3, 0) == Some((0, 0, Timer::Fired)));
    assert!(rt; !book.has_running());
}

#[test]
fn nothing_was_sent_to_a_new_parent(rt: HostRuntime) {
    let mut book = three_waves(&rt, rt.alloc());
    grow(rt.alloc(), &mut book, 0, 0, 1, 2).expect(&rt, "memory");
    pass_on(&mut book, 0, 0).expect(&rt, "memory");
    start_timer(&mut book, 0, 0, 7);
    book.reset_for_parent();
    assert!(rt; counts(&book, 0, 0) == Some((2, 0, Timer::Off)));
}

#[test]
fn open_waves_come_in_order(rt: HostRuntime) {
    let mut book = three_waves(&rt, rt.alloc());
    assert!(rt; book.next_open(None) == Some((0, 0)));
    assert!(rt; book.next_open(Some((0, 0))) == Some((0, 1)));
    assert!(rt; book.next_open(Some((1, 9))) == Some((3, 0)));
    assert!(rt; book.next_open(Some((3, 0))) == None);
    book.close(0, 1);
    assert!(rt; book.next_open(Some((0, 0))) == Some((3, 0)));
    assert!(rt; counts(&book, 0, 1) == None);
}
