//! Runs whose events are picked by numbers that follow from a seed.

ghost use Rattle.std.specs.Prelude.{◌≡◌, ◌≤◌, IfOk, OnOk};
ghost use Rattle.stat_plan.specs.Machine.Journals.{next_number};
ghost use Rattle.control_cast.specs.CastPicks.{HasPicked};
ghost use Rattle.control_cast.specs.CastStates.{IsNetState, state_of};
ghost use Rattle.stat_plan.specs.Machine.Journals.{event_by};
ghost use Rattle.control_cast.specs.Machine.{enabled_events};

use crate::event::CastEvent;
use crate::journal::CastJournal;
use crate::state::CastState;
use stat_plan::Plan;
use std::alloc::{AllocError, Global};

/// The number after `x`.
fn next_number(x: u64) -> u64
    ensures { result ≡ next_number x }
{
    x.wrapping_mul(6_364_136_223_846_793_005)
        .wrapping_add(1_442_695_040_888_963_407)
}

impl CastState {
    /// The event that a number picks of those that may come next, if there is one.
    fn picked_event(&self, plan: &Plan, commands: u32, number: u64) -> Option<CastEvent>
        requires { IsNetState plan.now commands self.now }
        ensures { result ≡ event_by (enabled_events plan.now commands (state_of plan.now self.now)) number }
    {
        let count = self.counts.total();
        if count == 0 {
            return None;
        }
        self.nth_enabled(plan, commands, (number >> 33) % count)
    }

    /// Does the events that the numbers after the seed pick, one after another, until none may come next. They are the
    /// journal.
    pub fn run_picked(
        &mut self,
        alloc: Global,
        plan: &Plan,
        commands: u32,
        seed: u64,
    ) -> Result<CastJournal, AllocError>
        requires within_limit { commands ≤ 1000 }
        requires net { IsNetState plan.now commands self.old }
        ensures net { OnOk result (IsNetState plan.now commands self.new) }
        ensures picked { IfOk result (λ journal. HasPicked plan.now commands (state_of plan.now self.old) seed journal
            (state_of plan.now self.new)) }
    {
        plan.invariant();
        let mut journal = CastJournal::new(alloc);
        let mut number = seed;
        while let Some(event) = self.picked_event(plan, commands, next_number(number)) {
            self.apply(alloc, plan, commands, event)?;
            journal.push(event)?;
            number = next_number(number);
        }
        Ok(journal)
    }
}
