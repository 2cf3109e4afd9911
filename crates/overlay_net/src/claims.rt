//! How a node goes out for an event, and comes home.

ghost use Rattle.std.specs.Prelude.{◌≡◌, ◌<◌, true, length, OnOk};
ghost use Rattle.stat_plan.specs.Plans.{AreNodes};
ghost use Rattle.overlay_event.specs.Events.{event_node};
ghost use Rattle.event_claims.specs.Claims.{MayBeClaimed};
ghost use Rattle.overlay_core.specs.Machine.{is_enabled};
ghost use Rattle.overlay_net.specs.Claims.{FitsNet, IsPrepared, WasWorked};
ghost use Rattle.overlay_net.specs.Events.{with_loss, without_lost};
ghost use Rattle.overlay_net.specs.Nets.{AllHome, outs_of};
ghost use Rattle.overlay_net.specs.Sends.{CanTake, IsTaken, changed};
ghost use Rattle.overlay_net.specs.States.{ExtendsState, IsClaimed, IsCommitted, IsNetState, IsNetStateBut, IsSameNet, net_at, state_at};

use crate::claimed::Claimed;
use crate::loss::cut_links;
use crate::place::{come_home, leave};
use crate::state::NetState;
use count_tree::CountTree;
use node_inbox::{Inbox, deliver, make_rooms};
use overlay_event::Event;
use packet_frame::Frame;
use prefix_tree::PrefixTree;
use stat_plan::Plan;
use std::alloc::{AllocError, Global};

// Takes the frame that an event receives.
fn take_frame(inboxes: &mut [Inbox<Frame>], event: Event) -> Option<Frame>
    requires { CanTake inboxes.old event }
    ensures taken { IsTaken inboxes.old event result inboxes.new }
    ensures count { length inboxes.new ≡ length inboxes.old }
{
    match event {
        Event::Recv { node, from } => Some(inboxes[node as usize].take(from)),
        _ => None,
    }
}

// Counts an event's node among those that are out with their loss, or no more; nothing if the event is no loss.
fn note_loss(losing: &mut CountTree, event: Event, count: u32)
    requires { event_node event < length losing.old }
    ensures { losing.new ≡ with_loss event count losing.old }
{
    if let Event::Lose { node } = event {
        losing.set(node, count);
    }
}

// An event's node doesn't live any more, if the event is its loss.
fn note_death(alive: &mut [bool], event: Event)
    requires { event_node event < length alive.old }
    ensures alive { alive.new ≡ without_lost event alive.old }
    ensures count { length alive.new ≡ length alive.old }
{
    if let Event::Lose { node } = event {
        alive[node as usize] = false;
    }
}

impl<T: PrefixTree> NetState<T> {
    /// Claims an event: its node goes out with the frame that the event receives. It takes no memory.
    pub fn claim(&mut self, plan: &Plan, event: Event) -> Claimed<T>
        requires net { IsNetState T.tree plan.now self.old }
        requires may { MayBeClaimed plan.now (state_at T.tree plan.now self.old)
            (outs_of (net_at T.tree plan.now self.old)) event }
        ensures net { IsNetState T.tree plan.now self.new }
        ensures claimed { IsClaimed event result (net_at T.tree plan.now self.old)
            (net_at T.tree plan.now self.new) }
    {
        plan.invariant();
        let frame = take_frame(self.nodes.inboxes.as_mut_slice(), event);
        let node = leave(self.nodes.places.as_mut_slice(), event, &frame);
        note_loss(&mut self.nodes.losing, event, 1);
        self.recount(plan, event, &[]);
        Claimed::new(event, node, frame)
    }

    /// Makes room for all that a claim sends and releases.
    ///
    /// Fails only if memory runs out.
    pub fn prepare(
        &mut self,
        alloc: Global,
        plan: &Plan,
        claim: &Claimed<T>,
    ) -> Result<(), AllocError>
        requires net { IsNetState T.tree plan.now self.old }
        requires fits { FitsNet (net_at T.tree plan.now self.old) claim.now }
        requires worked { WasWorked plan.now claim.now }
        ensures net { IsNetState T.tree plan.now self.new }
        ensures same { IsSameNet (net_at T.tree plan.now self.old) (net_at T.tree plan.now self.new) }
        ensures prepared { OnOk result (IsPrepared (net_at T.tree plan.now self.new) claim.now) }
    {
        plan.invariant();
        let effects = claim.effects();
        make_rooms(
            alloc,
            claim.event().node(),
            effects.sends.as_slice(),
            self.nodes.inboxes.as_mut_slice(),
        )?;
        self.releases.reserve(effects.releases.as_slice().len())
    }

    /// Brings a claim's node home: what it sends is delivered, and what it releases is added to the releases. It takes
    /// no memory.
    pub fn commit(&mut self, plan: &Plan, claim: Claimed<T>)
        requires net { IsNetState T.tree plan.now self.old }
        requires fits { FitsNet (net_at T.tree plan.now self.old) claim }
        requires worked { WasWorked plan.now claim }
        requires prepared { IsPrepared (net_at T.tree plan.now self.old) claim }
        ensures net { IsNetState T.tree plan.now self.new }
        ensures committed { IsCommitted claim.event (net_at T.tree plan.now self.old)
            (net_at T.tree plan.now self.new) }
    {
        plan.invariant();
        let (event, node, effects, receivers) = claim.into_parts();
        let n = event.node();
        come_home(self.nodes.places.as_mut_slice(), event, node);
        note_loss(&mut self.nodes.losing, event, 0);
        cut_links(plan, event, self.nodes.inboxes.as_mut_slice());
        deliver(
            n,
            effects.sends,
            self.nodes.alive.as_slice(),
            self.nodes.inboxes.as_mut_slice(),
        );
        note_death(self.nodes.alive.as_mut_slice(), event);
        let mut releases = effects.releases;
        let Ok(()) = self.releases.append(&mut releases) else {
            unreachable!()
        };
        self.recount(plan, event, receivers.as_slice());
    }

    /// Does an event that may come next, where no node is out.
    pub fn apply(&mut self, plan: &Plan, event: Event) -> Result<(), AllocError>
        requires net { IsNetState T.tree plan.now self.old }
        requires home { AllHome (net_at T.tree plan.now self.old) }
        requires enabled { is_enabled plan.now (state_at T.tree plan.now self.old) event ≡ true }
        ensures net { OnOk result (IsNetState T.tree plan.now self.new) }
        ensures home { OnOk result (AllHome (net_at T.tree plan.now self.new)) }
        ensures reached { OnOk result (ExtendsState T.tree plan.now event self.old self.new) }
    {
        let alloc = *self.releases.allocator();
        let claim = self.claim(plan, event);
        let claim = claim.work(alloc, plan)?;
        self.prepare(alloc, plan, &claim)?;
        self.commit(plan, claim);
        Ok(())
    }

    // Counts anew what may be claimed of the nodes that an event and its receivers have changed.
    fn recount(&mut self, plan: &Plan, event: Event, receivers: &[u32])
        requires net { IsNetStateBut (changed plan.now event receivers.now) T.tree plan.now self.old }
        requires below { AreNodes plan.now (changed plan.now event receivers.now) }
        ensures net { IsNetState T.tree plan.now self.new }
        ensures same { net_at T.tree plan.now self.new ≡ net_at T.tree plan.now self.old }
    {
        self.nodes.recount(plan, event, receivers, &mut self.counts);
    }
}
