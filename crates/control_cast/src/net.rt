//! The net of a cast: its nodes, and what is on the way between them.

ghost use Rattle.std.specs.Prelude.{◌≡◌, ◌≤◌, ◌<◌, ◌↔◌, [], true, false, not, slice_get, Err, IfOk, IsErr, OnErr, OnOk};
ghost use Rattle.stat_plan.specs.Plans.{nodes};
ghost use Rattle.control_cast.specs.CastPicks.{HasPicked};
ghost use Rattle.control_cast.specs.CastViews.{cast_state};
ghost use Rattle.control_cast.specs.Picked.{picked};
ghost use Rattle.control_cast.specs.Machine.{after, enabled_events, is_enabled, numbers_after, start, step};

use crate::event::CastEvent;
use crate::journal::CastJournal;
use crate::state::CastState;
use stat_plan::Plan;
use std::alloc::{AllocError, Global};
use std::marker::Model;

/// Why a net has not done an event.
#[derive(Debug, PartialEq, Eq, Clone, Copy)]
pub enum CastError {
    /// It may not come next.
    NotEnabled,
    /// Out of memory, in this event or in an earlier one.
    OutOfMemory,
}

/// The net of a cast of a plan.
#[derive(Drop)]
pub struct CastNet<'p> {
    alloc: Global,
    plan: &'p Plan,
    commands: u32,
    // The numbers of all commands, from 1 on.
    numbers: Vec<u32>,
    state: CastState,
    // Whether memory has run out. The state must not be used then.
    failed: bool,
}

impl<'p> Model for CastNet<'p> {
    ghost use Rattle.std.specs.Prelude.{◌≡◌, ◌≤◌, false};
    ghost use Rattle.control_cast.specs.CastViews.{NetView, coded_net};
    ghost use Rattle.control_cast.specs.CastStates.{IsNetState};
    ghost use Rattle.control_cast.specs.Machine.{numbers_after};

    ghost Value = { NetView };

    ghost coded = { coded_net };

    ghost view = { λ net. record {
      plan = net.plan.now;
      commands = net.commands;
      alive = net.state.nodes.alive.items;
      members = net.state.nodes.members.items;
      inboxes = net.state.nodes.inboxes.items;
      failed = net.failed;
    } };

    ghost invariant = { λ net. (net.commands ≤ 1000)
        × (net.numbers.items ≡ numbers_after 0 net.commands) × (net.failed ≡ false
        → IsNetState net.plan.now net.commands net.state) };
}

// The numbers of the commands.
fn numbers(alloc: Global, commands: u32) -> Result<Vec<u32>, AllocError>
    requires { commands ≤ 1000 }
    ensures { IfOk result (λ numbers. numbers.items ≡ numbers_after 0 commands) }
{
    let mut numbers = Vec::new(alloc);
    for i in 0..commands {
        numbers.push(i + 1)?;
    }
    Ok(numbers)
}

impl<'p> CastNet<'p> {
    /// The net of a plan in which nothing has happened yet.
    pub fn new(alloc: Global, plan: &'p Plan, commands: u32) -> Result<CastNet<'p>, AllocError>
        requires { commands ≤ 1000 }
        ensures plan { IfOk result (λ net. net.plan ≡ plan.now) }
        ensures commands { IfOk result (λ net. net.commands ≡ commands) }
        ensures start { IfOk result (λ net. cast_state net ≡ start plan.now) }
        ensures usable { IfOk result (λ net. net.failed ≡ false) }
    {
        let numbers = numbers(alloc, commands)?;
        let state = CastState::new(alloc, plan, commands)?;
        Ok(CastNet {
            alloc,
            plan,
            commands,
            numbers,
            state,
            failed: false,
        })
    }

    /// Does an event. It may be any event; one that may not come next changes nothing. After running out of memory,
    /// each later call returns that error, and the net must not be read any more.
    pub fn apply(&mut self, event: CastEvent) -> Result<(), CastError>
        ensures plan { self.new.plan ≡ self.old.plan }
        ensures commands { self.new.commands ≡ self.old.commands }
        ensures step { OnOk result (cast_state self.new ≡ step self.old.plan (cast_state self.old) event) }
        ensures enabled { OnOk result (is_enabled self.old.plan self.old.commands (cast_state self.old) event ≡ true) }
        ensures usable { OnOk result (self.new.failed ≡ false) }
        ensures not_enabled { self.old.failed ≡ false → (result ≡ Err CastError.NotEnabled)
            ↔ (is_enabled self.old.plan self.old.commands (cast_state self.old) event ≡ false) }
        ensures unchanged { result ≡ Err CastError.NotEnabled → self.new ≡ self.old }
        ensures failed { self.old.failed ≡ true → result ≡ Err CastError.OutOfMemory }
        ensures fails { result ≡ Err CastError.OutOfMemory → self.new.failed ≡ true }
    {
        if self.failed {
            return Err(CastError::OutOfMemory);
        }
        let nodes = &self.state.nodes;
        if !nodes.is_enabled(self.plan, self.commands, event) {
            return Err(CastError::NotEnabled);
        }
        match self
            .state
            .apply(self.alloc, self.plan, self.commands, event)
        {
            Ok(()) => Ok(()),
            Err(_) => {
                self.failed = true;
                Err(CastError::OutOfMemory)
            }
        }
    }

    /// The plan.
    pub fn plan(&self) -> &Plan
        ensures { result.now ≡ self.now.plan }
    {
        self.plan
    }

    /// How many commands there are.
    pub fn commands(&self) -> u32
        ensures value { result ≡ self.now.commands }
        ensures within_limit { result ≤ 1000 }
    {
        self.commands
    }

    /// The commands that a node has obeyed, in order.
    pub fn obeyed(&self, n: u32) -> &[u32]
        requires usable { self.now.failed ≡ false }
        requires below { n < nodes self.now.plan }
        ensures { result.now ≡ (cast_state self.now).obeyed n }
    {
        self.plan.invariant();
        let members = self.state.nodes.members.as_slice();
        let seen = members[n as usize].seen();
        &self.numbers.as_slice()[..seen as usize]
    }

    /// Whether a node is lost.
    pub fn is_lost(&self, n: u32) -> bool
        requires usable { self.now.failed ≡ false }
        requires below { n < nodes self.now.plan }
        ensures { result ≡ not ((cast_state self.now).net.alive n) }
    {
        !self.state.nodes.alive[n as usize]
    }

    /// The `i`-th of the events that may come next, from 0; none past the last. They are ordered by node, and those of
    /// a node as its loss, a command, and what it may receive by sender.
    pub fn enabled(&self, i: u64) -> Option<CastEvent>
        requires { self.now.failed ≡ false }
        ensures { result ≡ slice_get (enabled_events self.now.plan self.now.commands (cast_state self.now)) i }
    {
        self.state.nth_enabled(self.plan, self.commands, i)
    }

    /// Does the events that the numbers after the seed pick, one after another, until none may come next. They are the
    /// journal.
    pub fn run_picked(&mut self, seed: u64) -> Result<CastJournal, AllocError>
        ensures plan { self.new.plan ≡ self.old.plan }
        ensures commands { self.new.commands ≡ self.old.commands }
        ensures picked { IfOk result (λ journal. HasPicked self.old.plan self.old.commands (cast_state self.old) seed
            journal (cast_state self.new)) }
        ensures start { cast_state self.old ≡ start self.old.plan → IfOk result (λ journal.
            (journal ≡ picked self.old.plan self.old.commands seed)
            × (cast_state self.new ≡ after self.old.plan journal)) }
        ensures usable { OnOk result (self.new.failed ≡ false) }
        ensures failed { self.old.failed ≡ true → IsErr result }
        ensures fails { OnErr result (self.new.failed ≡ true) }
    {
        self.plan.invariant();
        if self.failed {
            return Err(AllocError);
        }
        match self
            .state
            .run_picked(self.alloc, self.plan, self.commands, seed)
        {
            Ok(journal) => Ok(journal),
            Err(_) => {
                self.failed = true;
                Err(AllocError)
            }
        }
    }
}
