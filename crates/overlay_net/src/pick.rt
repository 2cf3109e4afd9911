//! Runs whose events are picked by numbers that follow from a seed, and how long a journal can be.

ghost use Rattle.std.specs.Prelude.{◌≡◌, ◌<◌, ◌≤◌, ◌^◌, length, IfOk, OnOk};
ghost use Rattle.stat_plan.specs.Machine.Waves.{ticks};
ghost use Rattle.stat_plan.specs.Plans.{waves_of};
ghost use Rattle.overlay_core.specs.Bound.{bound, bound_of, longest};
ghost use Rattle.overlay_core.specs.Pick.{picked_event};
ghost use Rattle.stat_plan.specs.Machine.Journals.{next_number};
ghost use Rattle.overlay_net.specs.Nets.{AllHome};
ghost use Rattle.overlay_net.specs.Picks.{HasPicked};
ghost use Rattle.overlay_net.specs.States.{IsNetState, net_at, state_at};

use crate::state::NetState;
use overlay_event::{Event, Journal};
use overlay_setup::{Mode, StreamDef};
use prefix_tree::PrefixTree;
use stat_plan::Plan;
use std::alloc::AllocError;

/// The number after `x`.
fn next_number(x: u64) -> u64
    ensures { result ≡ next_number x }
{
    x.wrapping_mul(6_364_136_223_846_793_005)
        .wrapping_add(1_442_695_040_888_963_407)
}

impl<T: PrefixTree> NetState<T> {
    /// The event that a number picks of those that may come next, if there is one.
    fn picked_event(&self, plan: &Plan, number: u64) -> Option<Event>
        requires net { IsNetState T.tree plan.now self.now }
        requires home { AllHome (net_at T.tree plan.now self.now) }
        ensures { result ≡ picked_event plan.now (state_at T.tree plan.now self.now) number }
    {
        plan.invariant();
        let count = self.counts.total();
        if count == 0 {
            return None;
        }
        self.claimable(plan, (number >> 33) % count)
    }

    /// Does the events that the numbers after the seed pick, one after another, until none may come next. They are the
    /// journal.
    pub fn run_picked(&mut self, plan: &Plan, seed: u64) -> Result<Journal, AllocError>
        requires net { IsNetState T.tree plan.now self.old }
        requires home { AllHome (net_at T.tree plan.now self.old) }
        ensures net { OnOk result (IsNetState T.tree plan.now self.new) }
        ensures home { OnOk result (AllHome (net_at T.tree plan.now self.new)) }
        ensures picked { IfOk result (λ journal. HasPicked (net_at T.tree plan.now self.old) seed journal
            (net_at T.tree plan.now self.new)) }
    {
        plan.invariant();
        let mut journal = Journal::new(*self.releases.allocator());
        let mut number = seed;
        while let Some(event) = self.picked_event(plan, next_number(number)) {
            self.apply(plan, event)?;
            journal.push(event)?;
            number = next_number(number);
        }
        Ok(journal)
    }
}

/// How many waves the streams have in all.
fn wave_count(streams: &[StreamDef]) -> u64
    requires { length (waves_of streams.now) < 2 ^ 62 }
    ensures { result ≡ length (waves_of streams.now) }
{
    let mut count = 0;
    for stream in streams {
        count += u64::from(stream.waves());
    }
    count
}

/// After how many ticks a stream of this mode releases what has come in; 0 where it has no timer.
fn ticks(mode: Mode) -> u64
    ensures { result ≡ ticks mode }
{
    match mode {
        Mode::TimeOut(ticks) => u64::from(ticks),
        Mode::WaitForAll | Mode::DontWait => 0,
    }
}

/// The greatest timeout of the streams, 0 where there is none.
fn longest(streams: &[StreamDef]) -> u64
    ensures { result ≡ longest streams.now }
{
    let mut most = 0;
    for stream in streams {
        most = most.max(ticks(stream.mode()));
    }
    most
}

/// The bound for `n` nodes, `m` waves and the timeout `t`.
fn bound_of(n: u64, m: u64, t: u64) -> u64
    requires nodes { n ≤ 512 }
    requires waves { m ≤ 128 }
    requires ticks { t ≤ 1000 }
    ensures { result ≡ bound_of n m t }
{
    n * n + 9 * n + 3 * n * m * (n + 9) * (t + 1)
}

/// A number of events that no journal of the plan has more of.
pub fn length_bound(plan: &Plan) -> u64
    ensures { result ≡ bound plan.now }
{
    plan.invariant();
    let streams = plan.streams();
    bound_of(
        u64::from(plan.nodes()),
        wave_count(streams),
        longest(streams),
    )
}
